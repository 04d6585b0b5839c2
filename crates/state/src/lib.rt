// The box as the code has it: a state of the rules, and the counts of its files' cached pages. Every `Quay` is a valid state with the counts that are its
// own: whoever makes or changes one proves it, and no contract of a call repeats it.

#![tactic(auto)]

ghost use Rattle.std.specs.Prelude.{◌≡◌};
ghost use Rattle.rules.specs.Calls.{idle};
ghost use Rattle.rules.specs.Valid.{Valid};
ghost use Rattle.rules.specs.Views.{state_of, no_pages};

use rules::View;
use std::marker::Model;

// In a contract a `Quay` is the state that it stands for: its view with its two maps. The counts, `held`, follow from the cached map.
#[derive(Drop)]
pub struct Quay {
    pub view: View,
    pub cached: [u64; 128],
    pub fetching: [u64; 128],
    pub held: [u16; 8],
}

impl Model for Quay {
    ghost use Rattle.rules.specs.declared.State.{State};

    ghost Value = { State };

    ghost use Rattle.rules.specs.Views.{state_of};
    ghost use Rattle.rules.specs.Valid.{Valid};
    ghost use Rattle.parts.specs.Held.{Held};

    ghost view = { λ q. state_of q.view q.cached q.fetching };

    ghost invariant = { λ q. Valid (state_of q.view q.cached q.fetching) × Held q.cached q.held };
}

impl Quay {
    // The box of a view without pages.
    pub fn empty(view: View) -> Quay
        requires { Valid (state_of view no_pages no_pages) }
        ensures { result ≡ state_of view no_pages no_pages }
    {
        Quay {
            view,
            cached: [0; 128],
            fetching: [0; 128],
            held: [0; 8],
        }
    }

    // The idle state, with which the program starts.
    pub fn idle() -> Quay
        ensures { result ≡ idle }
    {
        Quay::empty(parts::idle())
    }
}
