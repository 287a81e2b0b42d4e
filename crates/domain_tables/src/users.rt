// Users: the id and the connection of each place.
ghost use Rattle.std.specs.Prelude.{◌≡◌, get_or};
ghost use Rattle.domain.specs.Tables.{attached as attached_in, add_user, hosts as hosts_of};
ghost use Rattle.domain_tables.specs.Held.{users_in};
ghost use Rattle.domain_tables.specs.Numbered.{placed};

use cols_masks::Mask;

#[repr(C)]
#[derive(Clone, Copy)]
pub struct Users {
    pub ids: [u16; 64],
    pub links: [u8; 64],
}

impl Users {
    // The place of user u, where u is attached on p.
    pub fn attached(&self, p: u8, u: u16) -> Option<u8>
        ensures { placed result ≡ attached_in (users_in self.now) p u }
    {
        let i = cols_find::find(&self.ids, u);
        if i < 64 {
            if self.links[i] == p {
                return Some(i as u8);
            }
        }
        None
    }

    // User u, attached on p, at the spare place; where there is none nothing changes.
    pub fn add(&mut self, u: u16, p: u8)
        ensures { users_in self.new ≡ add_user (users_in self.old) u p }
    {
        let i = cols_find::spare(&self.ids);
        if i < 64 {
            self.ids[i] = u;
            self.links[i] = p;
        }
    }

    // The connections that have a user of a mask of places: the lowest place is taken out of it until none is left.
    pub fn hosts(&self, who: u64) -> u16
        ensures { result ≡ hosts_of (users_in self.now) who }
    {
        let mut m: u16 = 0;
        let mut left = who;
        while left != 0 {
            let i = u64::trailing_zeros(left) as usize;
            m = m.with(self.links[i]);
            left = left.without(i as u8);
        }
        m
    }

    // The id of the user at a place, and its connection; 0 and 16 where there is no such place.
    pub fn name(&self, j: u8) -> u16
        ensures { result ≡ get_or self.now.ids j 0 }
    {
        let i = j as usize;
        if i < 64 {
            return self.ids[i];
        }
        0
    }

    pub fn link(&self, j: u8) -> u8
        ensures { result ≡ get_or self.now.links j 16 }
    {
        let i = j as usize;
        if i < 64 {
            return self.links[i];
        }
        16
    }
}
