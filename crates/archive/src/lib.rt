// What an archive tells of itself, for a host that compares it with its header.
#![tactic(auto)]

ghost use Rattle.std.specs.Prelude.{◌≡◌};
ghost use Rattle.archive.specs.Blocks.{block_size, version_number};

// The bytes of the control block.
pub fn block_size() -> u32
    ensures { result ≡ block_size }
{
    2336
}

// The version, as one number.
pub fn version_number() -> u32
    ensures { result ≡ version_number }
{
    400
}
