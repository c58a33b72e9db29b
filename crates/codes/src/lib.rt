// Numbers for callers in C: answers as 0 or a count, or the refusal's number below zero; settings from plain numbers.
#![tactic(auto)]

ghost use Rattle.std.specs.Prelude.{◌≡◌, min};
ghost use Rattle.codes.specs.Codes.{number_code, refusal_code, answer_code, size_code, count_code};
ghost use Rattle.codes.specs.Codes.{update_code, time_code, time_stored, settings_of};

use answers::Answer;
use protocol::{Protocol, Refusal, Settings};

// A count is told up to this one.
const COUNT_MOST: usize = 2147483647;

// An update that did not flush: below every refusal's, whose number is a byte.
const NOT_YET: i32 = -256;

// A refusal's number, below zero.
pub fn number_code(number: u8) -> i32
    ensures { result ≡ number_code number }
{
    let n = number as i32;
    0 - n
}

fn refusal_code(refusal: Refusal) -> i32
    ensures { result ≡ refusal_code refusal }
{
    number_code(refusal.number())
}

// 0, or the refusal.
pub fn answer_code(answer: Answer<()>) -> i32
    ensures { result ≡ answer_code answer }
{
    answer.map_or_else(refusal_code, |()| 0)
}

// A count.
pub fn size_code(n: usize) -> i32
    ensures { result ≡ size_code n }
{
    n.min(COUNT_MOST) as i32
}

// The count, or the refusal.
pub fn count_code(count: Answer<usize>) -> i32
    ensures { result ≡ count_code count }
{
    count.map_or_else(refusal_code, size_code)
}

// The count of an update's datagrams, the number of one that did not flush, or the refusal.
pub fn update_code(update: Answer<Option<usize>>) -> i32
    ensures { result ≡ update_code update }
{
    update.map_or_else(refusal_code, |written| written.map_or(NOT_YET, size_code))
}

// A check's time is stored, and 0 returned, or the refusal.
pub fn tell_time(time: Answer<u32>, when: &mut u32) -> i32
    ensures { (result ≡ time_code time) × (when.new ≡ time_stored time when.old) }
{
    match time {
        Ok(t) => {
            *when = t;
            0
        }
        Err(refusal) => refusal_code(refusal),
    }
}

// A number in 32 bits, the largest of them for one beyond.
pub fn narrow32(x: usize) -> u32
    ensures { result ≡ min x 4294967295 }
{
    x.min(u32::MAX as usize) as u32
}

// The settings of these numbers. One that is beyond its width becomes the largest of that width, which is out of range too.
pub fn settings(
    conv: u32,
    mtu: u32,
    mode: u32,
    interval: u32,
    threshold: u32,
    stream: u32,
    congestion: u32,
) -> Settings
    ensures { result ≡ settings_of conv mtu mode interval threshold stream congestion }
{
    Protocol::settings(
        conv,
        u16::try_from(mtu).unwrap_or(u16::MAX),
        u8::try_from(mode).unwrap_or(u8::MAX),
        u16::try_from(interval).unwrap_or(u16::MAX),
        u8::try_from(threshold).unwrap_or(u8::MAX),
        u8::try_from(stream).unwrap_or(u8::MAX),
        u8::try_from(congestion).unwrap_or(u8::MAX),
    )
}
