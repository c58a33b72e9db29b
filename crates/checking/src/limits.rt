// The limits of held segments.
ghost use Rattle.std.specs.Prelude.{◌≡◌, Bool};
ghost use Rattle.session.specs.Valid.{all};
ghost use Rattle.checking.specs.Tests.{word_fits, send_word_fits, sent_few};

use protocol::Protocol;

// Length at most mss, fragment number at most 126.
pub fn word_fits(word: u32, mss: u16) -> bool
    ensures { result ≡ word_fits mss word }
{
    (word / 65536 <= u32::from(mss)) & (word / 256 % 256 <= 126)
}

// The same, and the slot below 128.
pub fn send_word_fits(word: u32, mss: u16) -> bool
    ensures { result ≡ send_word_fits mss word }
{
    word_fits(word, mss) & (word % 256 < 128)
}

// Transmitted 20 times at most.
pub fn sent_few(transmissions: u8) -> bool
    ensures { result ≡ sent_few transmissions }
{
    transmissions <= Protocol::DEAD_AFTER
}

// Whether each passes a test: a pass with no early exit.
pub fn every<T: Copy, F: Fn(T) -> bool>(list: &[T], test: F) -> bool
    requires { F.IsAlwaysCallable test }
    ensures { (t : T → Bool) → ((x : T) (b : Bool) → F.post test x b → b ≡ t x) → result ≡ all t list.now }
{
    let mut fit = true;
    for x in list {
        fit = fit & test(*x);
    }
    fit
}
