// Words stored one after another in lent room.
ghost use Rattle.std.specs.Prelude.{◌≡◌, ◌+◌, ◌^◌, ◌<◌, slice_set};

// Lent room, and the place that is next: a number, since it goes on where the room ends. What the room is too short for is counted and not
// stored: so that one pass over the transitions both counts the required cubes and stores them where there are few.
#[derive(Drop)]
pub struct Store<'a> {
    pub room: &'a mut [u64],
    pub next: usize,
}

impl Store<'_> {
    // The word at the next place, if there is room. That the room is the one that was lent (`same_room`) each function says that stores: no type
    // can say it, since a call could put another slice into the struct.
    pub fn push(&mut self, word: u64)
        requires { self.old.next < 2 ^ 32 }
        ensures same_room { self.new.room.ghost_name ≡ self.old.room.ghost_name }
        ensures stored { self.new.room.now ≡ slice_set self.old.room.now self.old.next word }
        ensures counted { self.new.next ≡ self.old.next + 1 }
    {
        if self.next < self.room.len() {
            self.room[self.next] = word;
        }
        self.next += 1;
    }
}
