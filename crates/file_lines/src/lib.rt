// The shape of a checked file: lines of fields, the first fault with its line, stages in their order. This crate has the laws; each file
// has its own enum of refusals, which says of each case the number and what it returns.

#![tactic(auto)]

ghost use Rattle.std.specs.Prelude.{◌≡◌};
ghost use Rattle.model.specs.Refusal.{Check, fail};

// The refusals of a file or of a call (01, Refusals).
pub trait Refusal {
    // What a refusal says as a check.
    ghost refusal: { Self → Check };

    // Its number and what it returns.
    fn told(self) -> (u8, u32)
        ensures { refusal self ≡ fail result.0 result.1 };
}
