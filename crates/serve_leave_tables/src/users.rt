// The users' table without those who leave.
ghost use Rattle.std.specs.Prelude.{◌≡◌, length};
ghost use Rattle.domain.specs.Tables.{remove_users};
ghost use Rattle.domain_tables.specs.Held.{users_in};

use domain_tables::Users;

// The users at the places of a mask leave; a free place stays as it is.
pub fn leave(users: &mut Users, gone: u64)
    ensures left { users_in users.new ≡ remove_users (users_in users.old) gone }
    ensures sized { length users.old.ids ≡ 64 }
{
    let mut j = cols_masks::next_in(gone, 0);
    while j < 64 {
        if users.ids[j] != 0 {
            users.ids[j] = 0;
            users.links[j] = 0;
        }
        j = cols_masks::next_in(gone, j + 1);
    }
}
