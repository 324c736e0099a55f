// A text that is compiled.
ghost use Rattle.std.specs.Prelude.{◌^◌, ◌<◌, ◌≤◌, length};

// Bytes so few that the place of each fits a word of a step.
#[derive(Clone, Copy)]
pub struct Text<'a> {
    pub bytes: &'a [u8],
    pub ghost small: { length bytes.now < 2 ^ 31 },
}

// What entries are made of: a text, and for how many entries there is room.
#[derive(Clone, Copy)]
pub struct Source<'a> {
    pub text: Text<'a>,
    pub room: usize,
    pub ghost few: { room ≤ 1024 },
}
