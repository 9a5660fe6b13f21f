// What feeds do to the kept strokes, counted.
ghost use Rattle.std.specs.Prelude.{◌≡◌, ◌+◌, ◌≤◌};
ghost use Rattle.feed.specs.PortCalls.{added};
ghost use Rattle.feed.specs.Answers.{events_in};

// Strokes made, broken and shed: by one feed each 0 or 1, or added up.
#[derive(Clone, Copy, Debug, PartialEq, Eq)]
pub struct Events {
    pub made: u64,
    pub broken: u64,
    pub shed: u64,
}

impl Events {
    // Of no feed.
    // Kept: no derived Default, which would say of each number by itself that it is 0: this contract gives the three as one record.
    pub fn none() -> Events
        ensures { result ≡ record { made = 0; broken = 0; shed = 0 } }
    {
        Events {
            made: 0,
            broken: 0,
            shed: 0,
        }
    }

    // With those of more feeds.
    #[tactic(auto, unfolding(crate::specs::PortCalls::added))]
    pub fn plus(self, more: Events) -> Events
        requires { (self.made + more.made ≤ 18446744073709551615) × (self.broken + more.broken ≤ 18446744073709551615) × (self.shed + more.shed ≤ 18446744073709551615) }
        ensures { events_in result ≡ added (events_in self) (events_in more) }
    {
        Events {
            made: self.made + more.made,
            broken: self.broken + more.broken,
            shed: self.shed + more.shed,
        }
    }
}
