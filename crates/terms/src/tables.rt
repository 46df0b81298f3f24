// Words by their number: past the end a read finds a default and a write changes nothing.
ghost use Rattle.std.specs.Prelude.{◌≡◌, ℕ, [], length};
ghost use Rattle.terms.specs.Words.{reads, cells, put, put_in};

pub fn word<T: Copy>(words: &[T], i: u8, default: T) -> T
    ensures { result ≡ reads default words.now i }
{
    words.get(i as usize).copied().unwrap_or(default)
}

pub fn set_word<T: Drop>(words: &mut [T], i: u8, v: T)
    ensures { (d : T) → ◌≡◌ {A = ℕ → T} (reads d words.new) (put (length words.old) (reads d words.old) i v) }
{
    // Kept an index: of what is written through `get_mut`, no clause of the library tells the slice.
    if (i as usize) < words.len() {
        words[i as usize] = v;
    }
}

pub fn cell<T: Copy, const W: usize>(rows: &[[T; W]], i: u8, x: u8, default: T) -> T
    ensures { result ≡ cells default rows.now i x }
{
    match rows.get(i as usize) {
        Some(row) => word(row, x, default),
        None => default,
    }
}

pub fn set_cell<T: Copy, const W: usize>(rows: &mut [[T; W]], i: u8, x: u8, v: T)
    ensures { (d : T) → ◌≡◌ {A = ℕ → ℕ → T} (cells d rows.new) (put_in (length rows.old) W (cells d rows.old) i x v) }
{
    // Kept an index, as in `set_word`.
    if (i as usize) < rows.len() {
        set_word(&mut rows[i as usize], x, v);
    }
}

// A row by its number; past the last one a row of defaults.
pub fn row<T: Copy, const W: usize>(rows: &[[T; W]], i: u8, default: T) -> [T; W]
    ensures { ◌≡◌ {A = ℕ → T} (reads default result) (cells default rows.now i) }
{
    match rows.get(i as usize) {
        Some(row) => *row,
        None => [default; W],
    }
}

// As many of one value as there are.
pub fn filled<T: Copy, const W: usize>(v: T) -> [T; W]
    ensures { ◌≡◌ {A = ℕ → T} (reads v result) (λ _. v) }
{
    [v; W]
}

// Kept beside `filled`: its contract speaks of cells, and it is one call of that.
pub fn rows_filled<T: Copy, const W: usize, const H: usize>(v: T) -> [[T; W]; H]
    ensures { ◌≡◌ {A = ℕ → ℕ → T} (cells v result) (λ _ _. v) }
{
    [filled(v); H]
}
