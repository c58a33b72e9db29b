// Settings files for C: a number below zero is a refusal's.
ghost use Rattle.codes.specs.Codes.{settings_of};
ghost use Rattle.codes.specs.Gives.{Gives};
ghost use Rattle.settings_file.specs.Files.{Writes, read_from};
ghost use Rattle.settings_calls.specs.SettingsFiles.{writing_code, numbers, Stores};

// Writes the file of these settings at the start of a part: its count of bytes, or the refusal.
pub fn ampferweg_settings_write(
    conv: u32,
    mtu: u32,
    mode: u32,
    interval: u32,
    threshold: u32,
    stream: u32,
    congestion: u32,
    file: &mut [u8],
) -> i32
    ensures { Gives writing_code
        (λ a. Writes (settings_of conv mtu mode interval threshold stream congestion) file.old a file.new) result }
{
    settings_calls::write(
        conv, mtu, mode, interval, threshold, stream, congestion, file,
    )
}

// Reads a file: 0, and its settings are stored; or the refusal, and nothing is.
pub fn ampferweg_settings_read(
    file: &[u8],
    conv: &mut u32,
    mtu: &mut u32,
    mode: &mut u32,
    interval: &mut u32,
    threshold: &mut u32,
    stream: &mut u32,
    congestion: &mut u32,
) -> i32
    ensures { Stores (read_from file.now) result
        (numbers conv.old mtu.old mode.old interval.old threshold.old
        stream.old congestion.old)
        (numbers conv.new mtu.new mode.new interval.new threshold.new
        stream.new congestion.new) }
{
    settings_calls::read(
        file, conv, mtu, mode, interval, threshold, stream, congestion,
    )
}
