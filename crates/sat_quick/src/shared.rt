//! That the public type may be shared among threads.

use crate::guess::Guess;

fn is_shared<T: Send + Sync>(_value: &T) {}

/// Guesses may be shared.
pub(crate) fn are_shared(guess: &Guess) {
    is_shared(guess);
}
