//! Streams of octets to read and to write.

ghost use Rattle.std.specs.Prelude.{◌≡◌, ◌+◌, ◌<◌, ◌≤◌, List, ℕ, Bool, Option, false, length, IfSome, MatchOption};
ghost use Rattle.dercheck.specs.Streams.{PullTakes, GivesIfReady, PutAppends, FlagFollows};

/// How many octets are asked for at a time.
pub(crate) const MAX_PULL: usize = 256;

/// A stream of octets to read.
pub trait Source {
    // The octets left, if the source states them.
    ghost left: { Self → Option (List ℕ) };

    // Whether it has failed.
    ghost has_failed: { Self → Bool };

    // At least as many octets as it can still give.
    ghost bound: { Self → ℕ };

    // Whether the next octets are at hand.
    ghost ready: { Self → Bool } = { λ _. false };

    /// Puts the next octets at the start of `buf`, and returns how many. If `buf` has room, 0 means the end. `None` is
    /// a failure; then no octet of the stream was taken.
    fn pull(&mut self, buf: &mut [u8]) -> Option<usize>
        ensures within { IfSome result (λ n. n ≤ length buf.new) }
        ensures octets { PullTakes (left self.old) (left self.new) result buf.new }
        ensures bound { MatchOption result (bound self.new ≤ bound self.old)
            (λ n. bound self.new + n ≤ bound self.old) }
        ensures ready { GivesIfReady (ready self.old) result buf.new }
        ensures flag { FlagFollows (has_failed self.old) (has_failed self.new) result };

    /// Whether the next octets are at hand: then a pull with room gives some, and doesn't wait.
    fn is_ready(&self) -> bool
        ensures { result ≡ ready self.now };

    /// Whether a pull has failed.
    fn failed(&self) -> bool
        ensures { result ≡ has_failed self.now };
}

/// A stream of octets to write.
pub trait Sink {
    // The octets that it holds, if the sink states them.
    ghost held: { Self → Option (List ℕ) };

    // Whether it has failed.
    ghost has_failed: { Self → Bool };

    /// Appends the first of the octets, and returns how many: at least one, if there are any. `None` is a failure; then
    /// nothing was appended.
    fn put(&mut self, octets: &[u8]) -> Option<usize>
        ensures within { IfSome result (λ n. n ≤ length octets.now) }
        ensures some { IfSome result (λ n. 0 < length octets.now → 0 < n) }
        ensures octets { PutAppends (held self.old) (held self.new) result octets.now }
        ensures flag { FlagFollows (has_failed self.old) (has_failed self.new) result };

    /// Whether a put has failed.
    fn failed(&self) -> bool
        ensures { result ≡ has_failed self.now };
}
