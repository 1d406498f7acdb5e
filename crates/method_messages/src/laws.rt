//! A law of streams. It has no code of its own.

ghost use Rattle.std.specs.Prelude.{◌≡◌, ℕ, List};
ghost use Rattle.method_messages.specs.declared.error.MessageError.{MessageError};
ghost use Rattle.method_messages.specs.declared.message.Message.{Message};
ghost use Rattle.method_messages.specs.Refused.{IsRefused};
ghost use Rattle.method_messages.specs.Streams.{Unended, Reads};

/// A stream has one reading or is refused in one way, so what a reader tells of it is all there is to tell.
pub fn streams_read_one_way()
    ensures reading { (stream : List ℕ) (first second : List Message) (rest other : Unended) → Reads stream first rest
        → Reads stream second other → (first ≡ second) × (rest ≡ other) }
    ensures refusal { (stream : List ℕ) (fault other : MessageError) → IsRefused stream fault → IsRefused stream other → fault ≡ other }
    ensures either { (stream : List ℕ) (messages : List Message) (rest : Unended) (fault : MessageError) → Reads stream messages rest
        → IsRefused stream fault → ⊥ }
{}
