// Where variables and states are first named: a table with the lowest place of each key.
ghost use Rattle.std.specs.Prelude.{◌≡◌, ◌<◌};
ghost use Rattle.base.specs.Lists.{some_below};
ghost use Rattle.expression_reader.specs.inner.Places.{nowhere, noted, state_key, var_noted, picked, lowest_of};

use crate::Scope;

// The place of what is named nowhere, above all places of a file. No Option: the table has one number a key, and would double (fixed memory).
pub const NOWHERE: usize = usize::MAX;

// A key is named at `at`: the lowest place is kept.
#[tactic(auto, unfolding(crate::specs::inner::Places::noted))]
pub fn note(places: &mut [usize; 145], key: usize, at: usize)
    requires { key < 145 }
    ensures { places.new ≡ noted places.old key at }
{
    places[key] = at.min(places[key]);
}

// The key of a state; those that no formula has share one.
#[tactic(auto, unfolding(crate::specs::inner::Places::state_key))]
pub fn state_key(t: usize) -> usize
    ensures { (result ≡ state_key t) × (result < 145) }
{
    128 + t.min(16)
}

// A VAR of variable v, unless its own step binds it.
#[tactic(auto, unfolding(crate::specs::inner::Places::var_noted))]
pub fn note_var(places: &mut [usize; 145], scope: Scope, v: usize, at: usize)
    requires { v < 8 }
    ensures { places.new ≡ var_noted scope.state scope.own v at places.old }
{
    if !scope.own[v] {
        note(places, v * 16 + scope.state, at);
    }
}

// Whether a key is looked at: that of a variable where it is free, that of a state from a key on.
#[tactic(auto, unfolding(crate::specs::inner::Places::picked))]
fn is_picked(free: &[bool; 128], from: usize, key: usize) -> bool
    ensures { result ≡ picked free.now from key }
{
    if key < 128 { free[key] } else { from <= key }
}

// The lowest place of the keys that are looked at, if there is one.
pub fn lowest_of(free: [bool; 128], from: usize, places: &[usize; 145]) -> Option<usize>
    ensures { result ≡ some_below nowhere (lowest_of free from places.now) }
{
    let mut lowest = NOWHERE;
    for (key, place) in places.iter().enumerate() {
        if is_picked(&free, from, key) {
            lowest = lowest.min(*place);
        }
    }
    (lowest < NOWHERE).then_some(lowest)
}
