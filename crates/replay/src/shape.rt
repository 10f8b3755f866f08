// How each entry is called, by its number in compare/FORMAT.md.
ghost use Rattle.std.specs.Prelude.{◌↔◌, ◌<◌, IsSome};

#[derive(Clone, Copy, PartialEq, Eq)]
pub enum Shape {
    // A source, a target, both or neither.
    Plain,
    // A target that is its source too: the scrambler.
    InPlace,
    // A source and a target, and delays that come back: the encoders.
    Encoder,
    // A source, a target and a trellis: the decoders, and the chains over them.
    Decoder,
}

impl Shape {
    // No entry has a number of 34 or more.
    pub fn of(entry: u8) -> Option<Shape>
        ensures { IsSome result ↔ (entry < 34) }
    {
        match entry {
            3..=5 => Some(Shape::InPlace),
            17..=19 => Some(Shape::Encoder),
            23 | 24 | 27 | 30 | 31 => Some(Shape::Decoder),
            0..=33 => Some(Shape::Plain),
            _ => None,
        }
    }
}
