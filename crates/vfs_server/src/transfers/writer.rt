//! Bytes of files, put into the room of a reply.

use vfs_files::ZeroCopyWriter;
use vfs_flags::Fault;
use vfs_segments::{PositionedFile, Writer};

/// A writer whose room bytes of files are put into.
///
/// What is put follows the bytes that the writer has passed; these, the held place and the
/// segments' lengths stay. After what was put the room may hold anything.
#[derive(Drop)]
pub struct ZcWriter(pub Writer);

impl ZeroCopyWriter for ZcWriter {
    ghost use Rattle.std.specs.Prelude.{length};
    ghost use Rattle.vfs_segments.specs.Written.{Moves};
    ghost use Rattle.vfs_segments.specs.TransferLaws.{moves_nothing, moves_then, moves_room};

    ghost puts = { λ u a v. Moves u.0 a v.0 };

    ghost room = { λ u. length u.0.left };

    ghost nothing = { λ w. moves_nothing w.0 };

    ghost one_then_other = { λ u v w a b p q. moves_then u.0 v.0 w.0 a b p q };

    ghost takes_room = { λ u v a p. moves_room u.0 v.0 a p };

    fn read_from_file_at<P: PositionedFile>(
        &mut self,
        f: &mut P,
        count: usize,
        off: u64,
    ) -> Result<usize, Fault> {
        let mut moved = 0;
        let mut place = off;
        while moved < count {
            let n = self.0.read_from_file_at(f, count - moved, place)?;
            if n == 0 {
                return Ok(moved);
            }
            let Some(next) = place.checked_add(n as u64) else {
                return Err(None);
            };
            moved += n;
            place = next;
        }
        Ok(moved)
    }
}
