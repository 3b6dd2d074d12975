//! An IID as people write it, with hyphens and in braces.
#![tactic(auto)]

ghost use Rattle.std.specs.Prelude.{◌≡◌, length};
ghost use Rattle.guids.specs.Forms.{is_hyphened, unhyphened, is_braced, unbraced, Spells};

fn is_hyphened(word: &[u8]) -> bool
    ensures { result ≡ is_hyphened word.now }
{
    if word.len() != 36 {
        return false;
    }
    if word[8] != 45 {
        return false;
    }
    if word[13] != 45 {
        return false;
    }
    if word[18] != 45 {
        return false;
    }
    word[23] == 45
}

// The bytes of a word of 36 that are not its hyphens.
fn put_plain(word: &[u8], out: &mut [u8])
    requires { (length word.now ≡ 36) × (32 ≡ length out.old) }
    ensures { out.new ≡ unhyphened word.now }
{
    let b = text::put_bytes(out, 0, &word[0..8]);
    let c = text::put_bytes(out, b, &word[9..13]);
    let d = text::put_bytes(out, c, &word[14..18]);
    let e = text::put_bytes(out, d, &word[19..23]);
    text::put_bytes(out, e, &word[24..36]);
}

fn unhyphen(word: &[u8], out: &mut [u8; 32]) -> bool
    ensures { Spells word.now out.old result out.new }
{
    if is_hyphened(word) {
        put_plain(word, out);
        return true;
    }
    false
}

fn is_braced(word: &[u8]) -> bool
    ensures { result ≡ is_braced word.now }
{
    if word.len() != 38 {
        return false;
    }
    if word[0] != 123 {
        return false;
    }
    word[37] == 125
}

/// Whether the word is in one of these forms, and then its bytes without hyphens and braces into `out`, which else stays as it was.
pub fn plain(word: &[u8], out: &mut [u8; 32]) -> bool
    ensures { Spells (unbraced word.now) out.old result out.new }
{
    if is_braced(word) {
        return unhyphen(&word[1..37], out);
    }
    unhyphen(word, out)
}
