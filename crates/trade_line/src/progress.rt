//! The state of a run between two turns.
ghost use Rattle.std.specs.Prelude.{◌≡◌, ◌<◌, slice_set, vec_len, IfSome, true};
ghost use Rattle.trade_line.specs.Inner.Queue.{close};

// Records who has asked, which rooms remain, and what each person got.
#[derive(Drop)]
pub(crate) struct Progress {
    pub(crate) asked: Vec<bool>,
    pub(crate) remaining: Vec<bool>,
    pub(crate) given: Vec<Option<usize>>,
}

impl Progress {
    // Gives `room` to the person, or nothing if `room` is `None`. A room that is given no longer remains.
    pub(crate) fn grant(&mut self, person: usize, room: Option<usize>)
        requires person { person < vec_len self.old.given }
        requires room { IfSome room (λ r. r < vec_len self.old.remaining) }
        ensures given { self.new.given.items ≡ slice_set self.old.given.items person room }
        ensures remaining { self.new.remaining.items ≡ close self.old.remaining.items room }
        ensures asked { self.new.asked.items ≡ self.old.asked.items }
    {
        self.given[person] = room;
        if let Some(taken) = room {
            self.remaining[taken] = false;
        }
    }

    // Records that the person has asked.
    pub(crate) fn mark(&mut self, person: usize)
        requires { person < vec_len self.old.asked }
        ensures given { self.new.given.items ≡ self.old.given.items }
        ensures remaining { self.new.remaining.items ≡ self.old.remaining.items }
        ensures asked { self.new.asked.items ≡ slice_set self.old.asked.items person true }
    {
        self.asked[person] = true;
    }
}
