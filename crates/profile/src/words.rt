// Bytes to words, low byte first.
// Bytes, words and how many stay apart, with the facts of the three, as `lent` has them from C.
ghost use Rattle.std.specs.Prelude.{◌≡◌, ◌+◌, ◌*◌, ◌<◌, ◌≤◌, length, drop};
ghost use Rattle.registers.specs.Bytes.{laid};
ghost use Rattle.profile.specs.Serializer.{four_of, words_of};
ghost use Rattle.profile.specs.Lent.{left_of};

fn word_at(bytes: &[u8], at: usize) -> u32
    requires { at + 4 ≤ length bytes.now }
    ensures { result ≡ four_of (drop at bytes.now) }
{
    u32::from_le_bytes([bytes[at], bytes[at + 1], bytes[at + 2], bytes[at + 3]])
}

// Of n words the four from i on: loads first and stores after, so that each four become one.
// A `for` over the words misses this speed: it becomes a call of memcpy, which the C archive hasn't got.
#[tactic(auto, using(crate::proofs::Left::four_words))]
fn four(bytes: &[u8], n: usize, i: usize, words: &mut [u32])
    requires { (n * 4 ≤ length bytes.now) × (n ≤ length words.old) × (n ≤ 8) × (i + 4 ≤ n) }
    ensures { left_of n (i + 4) words.new bytes.now ≡ left_of n i words.old bytes.now }
{
    let a = word_at(bytes, i * 4);
    let b = word_at(bytes, (i + 1) * 4);
    let c = word_at(bytes, (i + 2) * 4);
    let d = word_at(bytes, (i + 3) * 4);
    words[i] = a;
    words[i + 1] = b;
    words[i + 2] = c;
    words[i + 3] = d;
}

// Of n words those from i on, at most three.
// Loads first here too: the `for` that would stand for both functions misses the speed.
#[tactic(auto, using(crate::proofs::Left::done, crate::proofs::Left::one_word, crate::proofs::Left::two_words, crate::proofs::Left::three_words))]
fn rest(bytes: &[u8], n: usize, i: usize, words: &mut [u32])
    requires { (n * 4 ≤ length bytes.now) × (n ≤ length words.old) × (n ≤ 8) × (i ≤ n) × (n ≤ i + 3) }
    ensures { words.new ≡ left_of n i words.old bytes.now }
{
    if n <= i {
        return;
    }
    let a = word_at(bytes, i * 4);
    if n <= i + 1 {
        words[i] = a;
        return;
    }
    let b = word_at(bytes, (i + 1) * 4);
    if n <= i + 2 {
        words[i] = a;
        words[i + 1] = b;
        return;
    }
    let c = word_at(bytes, (i + 2) * 4);
    words[i] = a;
    words[i + 1] = b;
    words[i + 2] = c;
}

// The first n words, at most eight.
#[tactic(auto, using(crate::proofs::Left::done, crate::proofs::Left::whole))]
pub(crate) fn copy(bytes: &[u8], n: usize, words: &mut [u32])
    requires { (n * 4 ≤ length bytes.now) × (n ≤ length words.old) × (n ≤ 8) }
    ensures { words.new ≡ laid words.old 0 (words_of n bytes.now) }
{
    if n < 4 {
        rest(bytes, n, 0, words);
        return;
    }
    four(bytes, n, 0, words);
    if n < 8 {
        rest(bytes, n, 4, words);
        return;
    }
    four(bytes, n, 4, words);
}
