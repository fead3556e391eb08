//! Laws of the definitions, each the contract of a function that does nothing.
ghost use Rattle.std.specs.Prelude.{ℕ, List, ◌++◌};
ghost use Rattle.ns_types.specs.Wire.Http.{Received, End, Closed, Requests, ReadAlike};

/// A byte string has one reading, except in the two cases of `ReadAlike`.
pub fn one_reading()
    ensures { (bytes : List ℕ) (xs ys : List Received) (e f : End)
        → Requests bytes xs e → Requests bytes ys f → ReadAlike bytes xs e ys f }
{}

/// Once a request has closed the connection, further bytes change nothing.
pub fn closed_stays()
    ensures { (bytes more : List ℕ) (xs : List Received)
        → Requests bytes xs Closed → Requests (bytes ++ more) xs Closed }
{}
