ghost use Rattle.std.specs.Prelude.{◌≡◌, IsSome, IfSome, ◌↔◌};
ghost use Rattle.pin_core.specs.Shapes.{IsWithinLimits};

/// How many slots there are, and how far their words go.
#[derive(Clone, Copy, Debug, PartialEq, Eq)]
pub struct Shape {
    /// The number of slots.
    pub slots: u32,
    /// The most pins of one slot.
    pub max_pins: u32,
    /// The last generation of a slot. A slot that is reclaimed at it retires.
    pub max_gen: u32,
}

impl Shape {
    ghost use Rattle.std.specs.Prelude.{◌≡◌, IsSome, IfSome, ◌↔◌};
    ghost use Rattle.pin_core.specs.Shapes.{shape_of, IsWithinLimits};

    /// The shape, where it is within the limits (*profile*): 1 to 65,536 slots, 1 to 1,073,741,823 pins, since the word
    /// has 30 bits for them, and a last generation of 1 or more.
    pub fn checked(slots: u32, max_pins: u32, max_gen: u32) -> Option<Shape>
        ensures within { IsSome result ↔ IsWithinLimits (shape_of slots max_pins max_gen) }
        ensures value { IfSome result (λ k. k ≡ shape_of slots max_pins max_gen) }
    {
        let within = 1 <= slots
            && slots <= 65536
            && 1 <= max_pins
            && max_pins <= 1073741823
            && 1 <= max_gen;
        if !within {
            return None;
        }
        Some(Shape {
            slots,
            max_pins,
            max_gen,
        })
    }
}
