//! The peer's end, as a wire is told of it.

ghost use Rattle.std.specs.Prelude.{◌≡◌, ◌≢◌, None};
ghost use Rattle.http_wire.specs.Steps.{Closes, cut_off};
ghost use Rattle.http_wire.specs.Wire.{wire_state};

use crate::wire::Wire;
use crate::{Phase, Response, State};

impl Wire {
    /// The peer has closed. A part that isn't whole is cut off; a body without a known size is whole.
    pub(crate) fn close(&mut self)
        requires { self.old.ending ≡ None }
        ensures closes { Closes self.old self.new }
        ensures over { wire_state self.new ≢ State.More }
    {
        match self.phase {
            Phase::Heads(passed) => self.close_in_head(passed),
            Phase::SizeLine => self.close_in_size(),
            Phase::Trailing => self.close_in_trailers(),
            Phase::Unbounded => self.close_unbounded(),
            Phase::Counted(left) => self.close_in_body(left),
            Phase::Chunk(left) => self.close_in_chunk(left),
            Phase::ChunkCr => self.close_behind_chunk(),
            Phase::ChunkLf => self.close_behind_return(),
        }
    }

    /// Ends the reading at the count of bytes.
    fn cut(&mut self)
        ensures { self.new ≡ cut_off self.old }
    {
        self.ending = Some(Response::Garbled(self.count));
    }

    fn close_in_head(&mut self, passed: u8)
        requires phase { self.old.phase ≡ Phase.Heads passed }
        requires going { self.old.ending ≡ None }
        ensures closes { Closes self.old self.new }
        ensures over { wire_state self.new ≢ State.More }
    {
        self.cut();
    }

    fn close_in_size(&mut self)
        requires phase { self.old.phase ≡ Phase.SizeLine }
        requires going { self.old.ending ≡ None }
        ensures closes { Closes self.old self.new }
        ensures over { wire_state self.new ≢ State.More }
    {
        self.cut();
    }

    fn close_in_trailers(&mut self)
        requires phase { self.old.phase ≡ Phase.Trailing }
        requires going { self.old.ending ≡ None }
        ensures closes { Closes self.old self.new }
        ensures over { wire_state self.new ≢ State.More }
    {
        self.cut();
    }

    /// A body that ends with the connection is whole.
    fn close_unbounded(&mut self)
        requires phase { self.old.phase ≡ Phase.Unbounded }
        requires going { self.old.ending ≡ None }
        ensures closes { Closes self.old self.new }
        ensures over { wire_state self.new ≢ State.More }
    {
        self.stop(Response::Served(false));
    }

    fn close_in_body(&mut self, left: u64)
        requires phase { self.old.phase ≡ Phase.Counted left }
        requires going { self.old.ending ≡ None }
        ensures closes { Closes self.old self.new }
        ensures over { wire_state self.new ≢ State.More }
    {
        self.cut();
    }

    fn close_in_chunk(&mut self, left: u64)
        requires phase { self.old.phase ≡ Phase.Chunk left }
        requires going { self.old.ending ≡ None }
        ensures closes { Closes self.old self.new }
        ensures over { wire_state self.new ≢ State.More }
    {
        self.cut();
    }

    fn close_behind_chunk(&mut self)
        requires phase { self.old.phase ≡ Phase.ChunkCr }
        requires going { self.old.ending ≡ None }
        ensures closes { Closes self.old self.new }
        ensures over { wire_state self.new ≢ State.More }
    {
        self.cut();
    }

    fn close_behind_return(&mut self)
        requires phase { self.old.phase ≡ Phase.ChunkLf }
        requires going { self.old.ending ≡ None }
        ensures closes { Closes self.old self.new }
        ensures over { wire_state self.new ≢ State.More }
    {
        self.cut();
    }
}
