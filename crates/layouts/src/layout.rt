// What a layout is: a number of link positions, and for each the position that follows it. It is a fact of the type:
// no value of it can say otherwise.
ghost use Rattle.std.specs.Prelude.{◌≡◌, ℕ, ◌<◌, ◌≤◌};
ghost use Rattle.layouts.specs.Positions.{following_of};

pub trait Layout {
    // how many link positions a record has
    ghost positions: { ℕ };

    // the position that follows each
    ghost follow: { ℕ → ℕ };

    fn positions() -> u8
        ensures value { result ≡ positions };

    // The position that follows `x`; none where `x` is no position.
    fn follow(x: u8) -> Option<u8>
        ensures value { result ≡ following_of positions follow x };

    ghost some: { 1 ≤ positions };

    ghost few: { positions ≤ 4 };

    ghost inside: { (x : ℕ) → x < positions → follow x < positions };
}
