//! Numbers and dates among the words.

ghost use Rattle.std.specs.Prelude.{◌≡◌, All, IfSome, SomeIff, option_map};
ghost use Rattle.std.specs.Char.{is_ascii_digit};
ghost use Rattle.std.specs.List.{list_all};
ghost use Rattle.std.specs.Str.Parse.{digits_value};
ghost use Rattle.command_words.specs.Words.{IsDigit, IsNumber, IsSectorCount, ReadsBudget, ReadsDate};

/// How many statements may begin where no budget is given.
const BUDGET: u64 = 1_000_000_000;
/// The date where none is given.
const DAY: [u8; 6] = *b"000000";
/// The smallest and the largest volume.
const LEAST: u64 = 1024;

const MOST: u64 = 921_600;

/// The budget of a run: digits alone, of 64 bits.
pub fn read_budget(word: Option<&str>) -> Option<u64>
    ensures { ReadsBudget (option_map (λ w. w.now) word.entry) result }
{
    match word {
        Some(word) => read_number(word),
        None => Some(BUDGET),
    }
}

/// The date of a run: six digits, whatever day.
pub fn read_day(word: Option<&str>) -> Option<[u8; 6]>
    ensures date { ReadsDate (option_map (λ w. w.now) word.entry) result }
    ensures digits { IfSome result (λ day. All IsDigit day) }
{
    let Some(word) = word else {
        return Some(DAY);
    };
    match <[u8; 6]>::try_from(word.as_bytes()) {
        Ok(day) if are_digits(&day) => Some(day),
        _ => None,
    }
}

fn are_digits(bytes: &[u8]) -> bool
    ensures { result ≡ list_all is_ascii_digit bytes.now }
{
    bytes.iter().all(|byte| byte.is_ascii_digit())
}

/// The number of sectors of a volume: digits alone, 1,024 to 921,600.
pub fn read_sector_count(word: &str) -> Option<u32>
    ensures { SomeIff result (IsSectorCount word.now) (digits_value 10 word.now) }
{
    match read_number(word) {
        Some(count) if LEAST <= count && count <= MOST => Some(count as u32),
        _ => None,
    }
}

/// The number that digits are, if it has at most 64 bits.
pub fn read_number(word: &str) -> Option<u64>
    ensures { SomeIff result (IsNumber word.now) (digits_value 10 word.now) }
{
    // `parse` takes a leading plus.
    if word.starts_with('+') {
        return None;
    }
    word.parse::<u64>().ok()
}
