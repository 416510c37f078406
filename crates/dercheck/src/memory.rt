//! Streams over memory.

ghost use Rattle.std.specs.Prelude.{◌≡◌, ◌+◌, ◌<◌, ◌≤◌, ◌++◌, ◌↔◌};
ghost use Rattle.std.specs.Prelude.{min, IsTrue, false, [], length, Some, IfSome, IsNone, MatchOption};

use crate::stream::{Sink, Source};

/// A source of two slices, given one after the other, which may fail at their end.
#[derive(Drop)]
pub struct Pieces<'a> {
    first: &'a [u8],
    second: &'a [u8],
    piece: usize,
    fails: bool,
    has_failed: bool,
    ghost positive: { 0 < piece },
}

impl<'a> Pieces<'a> {
    ghost use Rattle.dercheck.specs.Streams.{pieces_left, piece_of, fails_at_end, pieces_failed};

    /// The octets of `first`, then of `second`, at most `piece` a call. At their end a call fails if `fails` is true,
    /// and else gives none. The caller has to prove that `piece` isn't 0 (`requires`).
    pub fn new(first: &'a [u8], second: &'a [u8], piece: usize, fails: bool) -> Self
        requires { 0 < piece }
        ensures left { pieces_left result ≡ first.now ++ second.now }
        ensures piece { piece_of result ≡ piece }
        ensures end { fails_at_end result ≡ fails }
        ensures flag { pieces_failed result ≡ false }
    {
        Pieces {
            first,
            second,
            piece,
            fails,
            has_failed: false,
        }
    }
}

impl Source for Pieces<'_> {
    ghost use Rattle.dercheck.specs.Streams.{FlagFollows, GivesIfReady, PullTakes, pieces_left, pieces_ready, piece_of};
    ghost use Rattle.dercheck.specs.Streams.{fails_at_end, left_count, pieces_failed};

    ghost left = { λ s. Some (pieces_left s) };

    ghost has_failed = { λ s. pieces_failed s };

    ghost bound = { λ s. left_count s };

    ghost ready = { λ s. pieces_ready s };

    fn pull(&mut self, buf: &mut [u8]) -> Option<usize>
        ensures within { IfSome result (λ n. n ≤ length buf.new) }
        ensures octets { PullTakes (Some (pieces_left self.old)) (Some (pieces_left self.new))
            result buf.new }
        ensures bound { MatchOption result (left_count self.new ≤ left_count self.old)
            (λ n. left_count self.new + n ≤ left_count self.old) }
        ensures ready { GivesIfReady (pieces_ready self.old) result buf.new }
        ensures flag { FlagFollows (pieces_failed self.old) (pieces_failed self.new) result }
        ensures most { IfSome result (λ n. n ≤ piece_of self.old) }
        ensures end { IsNone result
            ↔ ((pieces_left self.old ≡ []) × IsTrue (fails_at_end self.old)) }
        ensures piece { piece_of self.new ≡ piece_of self.old }
        ensures fails { fails_at_end self.new ≡ fails_at_end self.old }
    {
        let room = buf.len().min(self.piece);
        if !self.first.is_empty() {
            let n = room.min(self.first.len());
            buf[..n].copy_from_slice(&self.first[..n]);
            self.first = &self.first[n..];
            return Some(n);
        }
        if !self.second.is_empty() {
            let n = room.min(self.second.len());
            buf[..n].copy_from_slice(&self.second[..n]);
            self.second = &self.second[n..];
            return Some(n);
        }
        if self.fails {
            self.has_failed = true;
            return None;
        }
        Some(0)
    }

    fn is_ready(&self) -> bool {
        false
    }

    fn failed(&self) -> bool {
        self.has_failed
    }
}

/// A sink that keeps at most 256 octets, and fails if it is full.
#[derive(Drop)]
pub struct Held {
    octets: [u8; 256],
    count: usize,
    room: usize,
    has_failed: bool,
    ghost within: { count ≤ room },
    ghost fits: { room ≤ 256 },
}

impl Held {
    ghost use Rattle.dercheck.specs.Streams.{held_octets, room_left, held_failed};

    /// An empty sink that keeps at most `room` octets. The caller has to prove that `room` is at most 256 (`requires`).
    pub fn new(room: usize) -> Self
        requires { room ≤ 256 }
        ensures empty { held_octets result ≡ [] }
        ensures room { room_left result ≡ room }
        ensures flag { held_failed result ≡ false }
    {
        Held {
            octets: [0; 256],
            count: 0,
            room,
            has_failed: false,
        }
    }

    /// The octets that it keeps.
    pub fn held(&self) -> &[u8]
        ensures { result.now ≡ held_octets self.now }
    {
        &self.octets[..self.count]
    }
}

impl Sink for Held {
    ghost use Rattle.dercheck.specs.Streams.{FlagFollows, PutAppends, held_octets, room_left, held_failed};

    ghost held = { λ s. Some (held_octets s) };

    ghost has_failed = { λ s. held_failed s };

    fn put(&mut self, octets: &[u8]) -> Option<usize>
        ensures within { IfSome result (λ n. n ≤ length octets.now) }
        ensures some { IfSome result (λ n. 0 < length octets.now → 0 < n) }
        ensures octets { PutAppends (Some (held_octets self.old)) (Some (held_octets self.new))
            result octets.now }
        ensures flag { FlagFollows (held_failed self.old) (held_failed self.new) result }
        ensures full { IsNone result ↔ ((room_left self.old ≡ 0) × (0 < length octets.now)) }
        ensures most { IfSome result (λ n. n ≡ min (length octets.now) (room_left self.old)) }
        ensures room { IfSome result (λ n. room_left self.new + n ≡ room_left self.old) }
    {
        let n = octets.len().min(self.room - self.count);
        if n == 0 && !octets.is_empty() {
            self.has_failed = true;
            return None;
        }
        let end = self.count + n;
        self.octets[self.count..end].copy_from_slice(&octets[..n]);
        self.count = end;
        Some(n)
    }

    fn failed(&self) -> bool {
        self.has_failed
    }
}
