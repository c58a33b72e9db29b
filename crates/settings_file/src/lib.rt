// The settings of a link in a file: the letters KLS, the version in 2 bytes, then conversation 4 bytes, mtu 2, mode 1, interval 2 and
// threshold 1. That is version 1, of 15 bytes, for an mtu up to 512 with stream and congestion off. Version 2, of 17 bytes, is for all
// other settings and adds one byte each for stream and congestion. Numbers are little-endian.
#![tactic(auto)]

ghost use Rattle.std.specs.Prelude.{◌≡◌, ◌≤◌, length};
ghost use Rattle.std.proofs.lemmas.List.Edits.{sets};
ghost use Rattle.settings_file.specs.Files.{first_size, second_size, fits_first, number_of, front, back, added, file_of, has_magic};
ghost use Rattle.settings_file.specs.Files.{settings_at, read_first, read_second, read_from, Writes};

use protocol::Settings;
use wire::number::Number;

// The magic, which every file begins with.
const MAGIC: [u8; 3] = *b"KLS";

// The bytes in which every version has its magic and its number.
const FRONT: usize = 5;

// The two versions and their bytes. A writer's part has room for both.
const FIRST: u16 = 1;

const FIRST_SIZE: usize = 15;

const SECOND: u16 = 2;

const SECOND_SIZE: usize = 17;

// The largest mtu of version 1.
const FIRST_MTU_MOST: u16 = 512;

// Why a file is not read, or not written.
#[derive(Clone, Copy, Debug, PartialEq, Eq)]
pub enum FileRefusal {
    ShortPart = 7,
    SettingOutOfRange = 12,
    NotSettings = 15,
    UnknownVersion = 16,
    NeedlessVersion = 20,
}

impl FileRefusal {
    // The refusal's number.
    pub fn number(self) -> u8
        ensures { result ≡ number_of self }
    {
        self as u8
    }
}

// Whether settings fit version 1.
fn fits_first(settings: Settings) -> bool
    ensures { result ≡ fits_first settings }
{
    (settings.mtu <= FIRST_MTU_MOST) & (settings.stream == 0) & (settings.congestion == 0)
}

// The magic and the version.
#[tactic(auto, using(crate::specs::FileLaws::front_stored))]
fn put_front(out: &mut [u8], version: u16)
    requires { first_size ≤ length out.old }
    ensures { out.new ≡ sets out.old 0 (front version) }
{
    pools::copy_part(&MAGIC, 0, 3, out, 0);
    version.put(out, 3);
}

// The settings of both versions, behind magic and version.
#[tactic(auto, using(crate::specs::FileLaws::back_stored))]
fn put_back(out: &mut [u8], settings: Settings)
    requires { first_size ≤ length out.old }
    ensures { out.new ≡ sets out.old 5 (back settings) }
{
    settings.conv.put(out, 5);
    settings.mtu.put(out, 9);
    settings.mode.put(out, 11);
    settings.interval.put(out, 12);
    settings.threshold.put(out, 14);
}

// What version 2 adds.
#[tactic(auto, using(crate::specs::FileLaws::added_stored))]
fn put_added(out: &mut [u8], settings: Settings)
    requires { second_size ≤ length out.old }
    ensures { out.new ≡ sets out.old 15 (added settings) }
{
    settings.stream.put(out, 15);
    settings.congestion.put(out, 16);
}

// The file of these settings, and how many bytes it has.
fn put_file(out: &mut [u8], settings: Settings) -> usize
    requires { second_size ≤ length out.old }
    ensures { (result ≡ length (file_of settings)) × (out.new ≡ sets out.old 0 (file_of settings)) }
{
    if fits_first(settings) {
        put_front(out, FIRST);
        put_back(out, settings);
        return FIRST_SIZE;
    }
    put_front(out, SECOND);
    put_back(out, settings);
    put_added(out, settings);
    SECOND_SIZE
}

// Writes the file of these settings at the start of a part: 7 where the part is under 17 bytes, then 12. No other byte changes.
#[tactic(auto, using(crate::specs::FileLaws::no_room, crate::specs::FileLaws::out_of_range, crate::specs::FileLaws::written))]
pub fn write(settings: Settings, out: &mut [u8]) -> Result<usize, FileRefusal>
    ensures { Writes settings out.old result out.new }
{
    if out.len() < SECOND_SIZE {
        return Err(FileRefusal::ShortPart);
    }
    if !settings.in_range() {
        return Err(FileRefusal::SettingOutOfRange);
    }
    Ok(put_file(out, settings))
}

// Whether a file begins with the magic.
#[tactic(auto, unfolding(crate::specs::Files::has_magic))]
fn has_magic(file: &[u8]) -> bool
    ensures { result ≡ has_magic file.now }
{
    file.starts_with(&MAGIC)
}

// The settings of a file's bytes, in range or not, with this for stream and for congestion.
#[tactic(auto, unfolding(crate::specs::Files::settings_at))]
fn settings_at(file: &[u8], stream: u8, congestion: u8) -> Settings
    requires { first_size ≤ length file.now }
    ensures { result ≡ settings_at file.now stream congestion }
{
    Settings {
        conv: u32::read(file, 5),
        mtu: u16::read(file, 9),
        interval: u16::read(file, 12),
        mode: u8::read(file, 11),
        threshold: u8::read(file, 14),
        stream,
        congestion,
    }
}

// A file of version 1: 15 for a wrong length, then 12. The versions differ in more than a size, so each has a reader of its own.
fn read_first(file: &[u8]) -> Result<Settings, FileRefusal>
    ensures { result ≡ read_first file.now }
{
    if file.len() != FIRST_SIZE {
        return Err(FileRefusal::NotSettings);
    }
    let settings = settings_at(file, 0, 0);
    if settings.in_range() && fits_first(settings) {
        Ok(settings)
    } else {
        Err(FileRefusal::SettingOutOfRange)
    }
}

// A file of version 2: 15 for a wrong length, then 12, then 20.
fn read_second(file: &[u8]) -> Result<Settings, FileRefusal>
    ensures { result ≡ read_second file.now }
{
    if file.len() != SECOND_SIZE {
        return Err(FileRefusal::NotSettings);
    }
    let settings = settings_at(file, u8::read(file, 15), u8::read(file, 16));
    if !settings.in_range() {
        return Err(FileRefusal::SettingOutOfRange);
    }
    if fits_first(settings) {
        return Err(FileRefusal::NeedlessVersion);
    }
    Ok(settings)
}

// Reads a file: 15 for under 5 bytes or a wrong magic, 16 for an unknown version, then as the version says.
pub fn read(file: &[u8]) -> Result<Settings, FileRefusal>
    ensures { result ≡ read_from file.now }
{
    if file.len() < FRONT || !has_magic(file) {
        return Err(FileRefusal::NotSettings);
    }
    match u16::read(file, 3) {
        FIRST => read_first(file),
        SECOND => read_second(file),
        _ => Err(FileRefusal::UnknownVersion),
    }
}
