// Settings files for C: a number below zero is a refusal's. The settings come and go as the seven numbers of the C interface.
#![tactic(auto)]

ghost use Rattle.std.specs.Prelude.{◌≡◌};
ghost use Rattle.codes.specs.Codes.{number_code, settings_of};
ghost use Rattle.settings_file.specs.Files.{number_of, Writes, read_from};
ghost use Rattle.codes.specs.Gives.{Gives};
ghost use Rattle.settings_calls.specs.SettingsFiles.{writing_code, numbers, Stores};

use settings_file::FileRefusal;

// A refusal's number, below zero.
fn refusal_code(refusal: FileRefusal) -> i32
    ensures { result ≡ number_code (number_of refusal) }
{
    codes::number_code(refusal.number())
}

// The count of a file's bytes, or the refusal.
fn writing_code(writing: Result<usize, FileRefusal>) -> i32
    ensures { result ≡ writing_code writing }
{
    match writing {
        Ok(n) => codes::size_code(n),
        Err(refusal) => refusal_code(refusal),
    }
}

// Writes the file of these settings at the start of a part: its count of bytes, or the refusal.
pub fn write(
    conv: u32,
    mtu: u32,
    mode: u32,
    interval: u32,
    threshold: u32,
    stream: u32,
    congestion: u32,
    file: &mut [u8],
) -> i32
    ensures { Gives writing_code
        (λ a. Writes (settings_of conv mtu mode interval threshold stream congestion) file.old a file.new) result }
{
    let settings = codes::settings(conv, mtu, mode, interval, threshold, stream, congestion);
    writing_code(settings_file::write(settings, file))
}

// Reads a file: 0, and its settings are stored; or the refusal, and nothing is.
pub fn read(
    file: &[u8],
    conv: &mut u32,
    mtu: &mut u32,
    mode: &mut u32,
    interval: &mut u32,
    threshold: &mut u32,
    stream: &mut u32,
    congestion: &mut u32,
) -> i32
    ensures { Stores (read_from file.now) result
        (numbers conv.old mtu.old mode.old interval.old threshold.old
        stream.old congestion.old)
        (numbers conv.new mtu.new mode.new interval.new threshold.new
        stream.new congestion.new) }
{
    match settings_file::read(file) {
        Ok(settings) => {
            *conv = settings.conv;
            *mtu = u32::from(settings.mtu);
            *mode = u32::from(settings.mode);
            *interval = u32::from(settings.interval);
            *threshold = u32::from(settings.threshold);
            *stream = u32::from(settings.stream);
            *congestion = u32::from(settings.congestion);
            0
        }
        Err(refusal) => refusal_code(refusal),
    }
}
