// What the words of the command line ask for.
ghost use Rattle.std.specs.Prelude.{◌≡◌, ◌≤◌, ◌<◌, ◌-◌, ◌^◌, ℕ, ◌∷◌, [], MatchOption, min, true, string_bytes};
ghost use Rattle.dart_sites.specs.Words.{Asks, AsksWorkers, NoRequest, IsNumber, is_plain, is_digit_byte, digits_value, texts};
ghost use Rattle.std.specs.List.{list_all};
ghost use Rattle.dart_sites.specs.declared.words.Request.{Request};

/// What the words ask for.
#[derive(Clone, Copy)]
pub enum Request<'a> {
    /// `check`: what the source counts.
    Check,
    /// `list`: its classes and its call sites.
    List,
    /// `run TURNS 1 ENTRY ..`: these entries, 1 to 64, with 1 to 1,000,000,000 turns each.
    Run { turns: u64, names: &'a [String] },
}

fn is_digit_byte(b: u8) -> bool
    ensures { result ≡ is_digit_byte b }
{
    b >= b'0' && b <= b'9'
}

fn is_all_digits(text: &[u8]) -> bool
    ensures { result ≡ list_all is_digit_byte text.now }
{
    text.iter().all(|b| is_digit_byte(*b))
}

/// The number that digits write, or the greatest `u64` where it is no less.
fn digits_value(text: &[u8]) -> u64
    requires { list_all is_digit_byte text.now ≡ true }
    ensures { result ≡ min (digits_value text.now) (2 ^ 64 - 1) }
{
    let mut value = 0u64;
    for b in text {
        value = value
            .saturating_mul(10)
            .saturating_add(u64::from(*b - b'0'));
    }
    value
}

/// The number that a word writes in plain digits.
fn number(text: &[u8]) -> Option<u64>
    ensures { MatchOption result ((n : ℕ) → n < 2 ^ 64 - 1 → IsNumber text.now n → ⊥) (λ n. IsNumber text.now n) }
{
    if !is_plain(text) {
        return None;
    }
    let value = digits_value(text);
    if value < u64::MAX { Some(value) } else { None }
}

fn is_plain(text: &[u8]) -> bool
    ensures { result ≡ is_plain text.now }
{
    match text {
        [] => false,
        [b'0'] => true,
        [b'0', ..] => false,
        _ => is_all_digits(text),
    }
}

/// The request of a command that stands alone.
fn read_alone<'a>(command: &String) -> Option<Request<'a>>
    ensures { MatchOption result (NoRequest (string_bytes command.now ∷ [])) (λ r. Asks (string_bytes command.now ∷ []) r) }
{
    match command.as_str() {
        "check" => Some(Request::Check),
        "list" => Some(Request::List),
        _ => None,
    }
}

/// The request of a command with turns, workers and entries.
fn read_run<'a>(
    command: &String,
    turns: &String,
    workers: &String,
    names: &'a [String],
) -> Option<Request<'a>>
    ensures { MatchOption result (NoRequest (string_bytes command.now ∷ string_bytes turns.now ∷ string_bytes workers.now ∷ texts names.now)) (λ r. Asks (string_bytes command.now ∷ string_bytes turns.now ∷ string_bytes workers.now ∷ texts names.now) r) }
{
    if command.as_str() != "run"
        || workers.as_str() != "1"
        || names.is_empty()
        || names.len() > 64
    {
        return None;
    }
    let turns = number(turns.as_str().as_bytes())?;
    if turns < 1 || turns > 1_000_000_000 {
        return None;
    }
    Some(Request::Run { turns, names })
}

/// The request of the words.
pub fn read_request(words: &[String]) -> Option<Request<'_>>
    ensures { MatchOption result (NoRequest (texts words.now)) (λ r. Asks (texts words.now) r) }
{
    match words {
        [command] => read_alone(command),
        [command, turns, workers, names @ ..] => read_run(command, turns, workers, names),
        _ => None,
    }
}

/// The number of workers that the words ask for; none exactly where they are no request.
pub fn workers_of(words: &[String]) -> Option<u32>
    ensures { MatchOption result (NoRequest (texts words.now)) (λ count. AsksWorkers (texts words.now) count) }
{
    match read_request(words) {
        Some(Request::Check | Request::List | Request::Run { .. }) => Some(1),
        None => None,
    }
}
