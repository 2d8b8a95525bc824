// Words over two ordered letters: Lyndon words, their factorisation, and Christoffel words (contract 3.7 to 3.10).
#![tactic(auto)]

ghost use Rattle.std.specs.Prelude.{◌+◌, ◌%◌, ◌<◌, ◌≤◌, ◌≡◌, ◌&&◌, length, drop};
ghost use Rattle.words.specs.Word.{word_of, laters};
ghost use Rattle.words.specs.Lyndon.{factors_of};
ghost use Rattle.words.specs.Christoffel.{coprime, remainders, christoffel};
ghost use Rattle.words.specs.parts.Search.{first_of, judged};

// Letters and the later letter of two go together in all that follows. They stay two parameters: a part of the letters is a word, too, and
// a struct would be built anew for each part.

// The first factor of a word: the length of one copy, the number of repeats, and the later letters of one copy.
#[derive(Clone, Copy)]
pub struct Found {
    pub length: u32,
    pub times: u32,
    pub laters: u32,
}

// The first factor (contract 3.9) of the letters from `from` on, in one pass (Duval).
pub fn first_factor(w: &[u8], from: usize, later: u8) -> Option<Found>
    requires { length w.now < 4294967296 }
    ensures { result ≡ first_of (factors_of (word_of later (drop from w.now))) }
{
    if w.len() <= from {
        return None;
    }
    let count = w.len() as u32;
    let start = from as u32;
    let mut i = start;
    let mut j = start + 1;
    // The later letters of everything read so far, and those of one period of it.
    let mut read = u32::from(w[from] == later);
    let mut laters = read;
    // Two places move at two paces, and a break ends the loop between them: a `for` is no plainer.
    while j < count {
        let a = w[i as usize];
        let letter = w[j as usize];
        let b = u32::from(letter == later);
        // Nearly every letter equals the one a period before it and continues the period.
        if a == letter {
            i += 1;
        } else if letter == later {
            // A larger letter makes everything read so far one Lyndon word.
            i = start;
            laters = read + b;
        } else if a == later {
            break;
        } else {
            i += 1;
        }
        read += b;
        j += 1;
    }
    let length = j - i;
    let span = j - start;
    let times = span / length;
    Some(Found {
        length,
        times,
        laters,
    })
}

// (rem + k) mod n, with no sum above n.
fn next_remainder(rem: u32, k: u32, n: u32) -> u32
    requires { (rem < n) × (k ≤ n) }
    ensures { result ≡ (rem + k) % n }
{
    let left = n - k;
    if rem < left { rem + k } else { rem - left }
}

// Whether the letters follow the remainders of i·k by the length (Brlek, Lachaud, Provençal and Reutenauer, applied to every letter).
fn follows_remainders(w: &[u8], k: u32, later: u8) -> bool
    requires { (0 < length w.now) × (k ≤ length w.now) × (length w.now < 4294967296) }
    ensures { result ≡ (coprime k (length w.now) && remainders (word_of later w.now) k (length w.now)) }
{
    let count = w.len() as u32;
    let mut rem: u32 = 0;
    for i in 0..count {
        // k and the length have a common divisor exactly if a remainder before the last is 0.
        if rem == 0 && 0 < i {
            return false;
        }
        let next = next_remainder(rem, k, count);
        // The letter must be the earlier one exactly if the remainder grows.
        if (w[i as usize] == later) == (rem < next) {
            return false;
        }
        rem = next;
    }
    true
}

// Whether `w`, with k later letters, is a Christoffel word (contract 3.10). A single letter is one; the empty word is not.
fn is_christoffel(w: &[u8], k: u32, later: u8) -> bool
    requires { (k ≡ laters (word_of later w.now)) × (length w.now < 4294967296) }
    ensures { result ≡ christoffel (word_of later w.now) }
{
    if w.len() < 2 {
        return w.len() == 1;
    }
    follows_remainders(w, k, later)
}

// A factor, the later letters of one copy, and whether it is a Christoffel word.
// The fields of `Found` stand here again: `factor.found.length` would be no plainer for its callers.
#[derive(Clone, Copy)]
pub struct JudgedFactor {
    pub length: u32,
    pub times: u32,
    pub laters: u32,
    pub christoffel: bool,
}

// One step of a loop over all factors: the first factor of the letters from `at` on. The next factor starts times · length letters later.
pub fn factor_at(w: &[u8], at: usize, later: u8) -> Option<JudgedFactor>
    requires { length w.now < 4294967296 }
    ensures { result ≡ judged (factors_of (word_of later (drop at w.now))) }
{
    let found = first_factor(w, at, later)?;
    let end = at + found.length as usize;
    let copy = &w[at..end];
    Some(JudgedFactor {
        length: found.length,
        times: found.times,
        laters: found.laters,
        christoffel: is_christoffel(copy, found.laters, later),
    })
}
