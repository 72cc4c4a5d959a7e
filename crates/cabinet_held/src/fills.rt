// A personality in its room.
ghost use Rattle.std.specs.Prelude.{◌-◌, ◌≤◌, ◌++◌, ◌≡◌, length, replicate};

// Stores a personality with zeros behind it.
pub fn store(personality: &[u8], room: &mut [u8])
    requires { length personality.now ≤ length room.old }
    ensures { room.new ≡ personality.now ++ replicate (length room.old - length personality.now) 0 }
{
    let size = personality.len();
    state_forms::put_all(room, 0, personality);
    room[size..].fill(0);
}
