// Channels: the id, kind and manager's place of each place, and beside them the admitted users and the connections joined.
ghost use Rattle.std.specs.Prelude.{◌≡◌, get_or, set};
ghost use Rattle.cols_spec.specs.Places.{find as find_in};
ghost use Rattle.domain.specs.Cells.{no_channel};
ghost use Rattle.domain.specs.Tables.{add_channel, end_channel};
ghost use Rattle.domain_tables.specs.Held.{cells_in, channels_in};
ghost use Rattle.domain_tables.specs.Numbered.{placed};

use domain::channel::Channel;

#[repr(C)]
#[derive(Clone, Copy)]
pub struct Channels {
    pub ids: [u16; 128],
    pub kinds: [u8; 128],
    pub managers: [u8; 128],
}

// Who is in each channel: of a private one the admitted users; the connections joined.
#[repr(C)]
#[derive(Clone, Copy)]
pub struct Members {
    pub admitted: [u64; 128],
    pub joined: [u16; 128],
}

// What stands at a place that is free.
const BLANK: Channel = Channel {
    role: 0,
    chair: 0,
    guests: 0,
    marks: 0,
};

impl Channels {
    // The place of channel c.
    pub fn find(&self, c: u16) -> Option<usize>
        ensures { placed result ≡ find_in self.now.ids c }
    {
        let j = cols_find::find(&self.ids, c);
        if j < 128 { Some(j) } else { None }
    }

    // What stands at place j; a blank where there is no such place.
    pub fn at(&self, members: &Members, j: usize) -> Channel
        ensures { result ≡ get_or (cells_in self.now members.now) j no_channel }
    {
        if j < 128 {
            return Channel {
                role: self.kinds[j],
                chair: self.managers[j],
                guests: members.admitted[j],
                marks: members.joined[j],
            };
        }
        BLANK
    }

    // Channel ch at place j; where there is no such place nothing changes.
    pub fn put(&mut self, members: &mut Members, j: usize, ch: Channel)
        ensures ids { self.new.ids ≡ self.old.ids }
        ensures cells { cells_in self.new members.new ≡ set (cells_in self.old members.old) j ch }
    {
        if j < 128 {
            self.kinds[j] = ch.role;
            self.managers[j] = ch.chair;
            members.admitted[j] = ch.guests;
            members.joined[j] = ch.marks;
        }
    }

    // Channel c at the spare place; where there is none nothing changes.
    pub fn add(&mut self, members: &mut Members, c: u16, ch: Channel)
        ensures { channels_in self.new members.new ≡ add_channel (channels_in self.old members.old) c ch }
    {
        let j = cols_find::spare(&self.ids);
        if j < 128 {
            self.ids[j] = c;
            self.put(members, j, ch);
        }
    }

    // The channel at place j ends.
    pub fn end(&mut self, members: &mut Members, j: usize)
        ensures { channels_in self.new members.new ≡ end_channel (channels_in self.old members.old) j }
    {
        self.put(members, j, BLANK);
        if j < 128 {
            self.ids[j] = 0;
        }
    }
}
