//! Numbers of requests and of extensions, and what they stand for.

ghost use Rattle.std.specs.Prelude.{◌≡◌, [], ◌∷◌, Ok, Err};
ghost use Rattle.vfs_flags.specs.Numbers.{number_of};

use vfs_flags::{ExtType, NotifyOpcode, Opcode};

/// 1 is a LOOKUP and 51 a TMPFILE; 7 and 52 are no numbers of requests.
fn opcodes() -> [Result<Opcode, ()>; 4]
    ensures { result ≡ Ok Opcode.Lookup ∷ Ok Opcode.TmpFile ∷ Err tt ∷ Err tt ∷ [] }
{
    [
        Opcode::try_from(1),
        Opcode::try_from(51),
        Opcode::try_from(7),
        Opcode::try_from(52),
    ]
}

/// 31 is that many security contexts and 32 groups; 33 is no extension.
fn extensions() -> [Result<ExtType, ()>; 3]
    ensures { result ≡ Ok (ExtType.SecCtx 31) ∷ Ok ExtType.SupGroups ∷ Err tt ∷ [] }
{
    [
        ExtType::try_from(31),
        ExtType::try_from(32),
        ExtType::try_from(33),
    ]
}

/// The number of a request.
fn number(opcode: Opcode) -> u32
    ensures { result ≡ number_of opcode }
{
    opcode as u32
}

/// The numbers of the notifications, and the end of their list.
fn notifications() -> [u32; 7]
    ensures { result ≡ 1 ∷ 2 ∷ 3 ∷ 4 ∷ 5 ∷ 6 ∷ 7 ∷ [] }
{
    [
        NotifyOpcode::Poll as u32,
        NotifyOpcode::InvalInode as u32,
        NotifyOpcode::InvalEntry as u32,
        NotifyOpcode::Store as u32,
        NotifyOpcode::Retrieve as u32,
        NotifyOpcode::Delete as u32,
        NotifyOpcode::CodeMax as u32,
    ]
}
