//! What a step tells the bus, in five slots.
#![tactic(auto)]

ghost use Rattle.std.specs.Prelude.{◌≡◌, [], ◌++◌};
ghost use Rattle.events.specs.Events.{listed, alone, told_by};
ghost use Rattle.actions.specs.Actions.{consed, packed, laid};

use control_pipe::Told;
use effects::Action;

/// At most five actions, in order; `Nothing` from the first free slot on.
// Five fields and no array: `packed`, `slots` and the theorems on five actions speak of them.
#[derive(Clone, Copy, Debug, PartialEq, Eq)]
pub struct Actions {
    pub first: Action,
    pub second: Action,
    pub third: Action,
    pub fourth: Action,
    pub fifth: Action,
}

impl Actions {
    /// No action.
    pub fn none() -> Actions
        ensures { result ≡ packed [] }
    {
        Actions {
            first: Action::Nothing,
            second: Action::Nothing,
            third: Action::Nothing,
            fourth: Action::Nothing,
            fifth: Action::Nothing,
        }
    }

    // One more before the others.
    fn after(self, action: Action) -> Actions
        ensures { result ≡ consed action self }
    {
        Actions {
            first: action,
            second: self.first,
            third: self.second,
            fourth: self.third,
            fifth: self.fourth,
        }
    }

    fn after_both(self, action: Action, next: Action) -> Actions
        ensures { result ≡ consed action (consed next self) }
    {
        self.after(next).after(action)
    }

    fn after_told(self, told: Told) -> Actions
        ensures { result ≡ laid (listed told) self }
    {
        match told {
            Told::Nothing => self,
            Told::Unstalls => self.after_both(Action::UnstallOut, Action::UnstallIn),
            Told::UnstallsStalls => self
                .after_both(Action::StallOut, Action::StallIn)
                .after_both(Action::UnstallOut, Action::UnstallIn),
            Told::Stalls => self.after_both(Action::StallOut, Action::StallIn),
            Told::UnstallOut => self.after(Action::UnstallOut),
            Told::Write(n) => self.after(Action::Write(n)),
            Told::Refused(n) => self.after(Action::Refused(n)),
        }
    }

    fn after_alone(self, action: Action) -> Actions
        ensures { result ≡ laid (alone action) self }
    {
        match action {
            Action::Nothing => self,
            _ => self.after(action),
        }
    }

    /// What an event tells: a resume, then what the SETUP or the OUT packet tells, then one action, then what the packet or the stall
    /// tells.
    pub fn tell(resumed: bool, first: Told, act: Action, second: Told) -> Actions
        ensures { result ≡ packed (told_by resumed first act second) }
    {
        let rest = Actions::none()
            .after_told(second)
            .after_alone(act)
            .after_told(first);
        if resumed {
            return rest.after(Action::Resume);
        }
        rest
    }
}
