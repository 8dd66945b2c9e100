//! Bytes of a request, put into files.

use vfs_files::ZeroCopyReader;
use vfs_flags::Fault;
use vfs_segments::{PositionedFile, Reader, WritevFlags};

/// A reader whose bytes are put into files. What is taken are exactly its next bytes.
#[derive(Drop)]
pub struct ZcReader<'a>(pub Reader<'a>);

impl<'a> ZeroCopyReader for ZcReader<'a> {
    ghost use Rattle.vfs_server.specs.Takes.{Takes, takes_nothing, takes_then, takes_next};

    ghost takes = { λ u a v. Takes u.0 a v.0 };

    ghost left = { λ u. u.0.left };

    ghost nothing = { λ r. takes_nothing r.0 };

    ghost one_then_other = { λ u v w a b p q. takes_then u.0 v.0 w.0 a b p q };

    ghost takes_first = { λ u v a p. takes_next u.0 v.0 a p };

    fn write_to_file_at<P: PositionedFile>(
        &mut self,
        f: &mut P,
        count: usize,
        off: u64,
        flags: Option<WritevFlags>,
    ) -> Result<usize, Fault> {
        let mut moved = 0;
        let mut place = off;
        while moved < count {
            let n = self.0.write_to_file_at(f, count - moved, place, flags)?;
            if n == 0 {
                return Ok(moved);
            }
            let Some(next) = place.checked_add(n as u64) else {
                return Err(None);
            };
            moved += n;
            place = next;
        }
        Ok(moved)
    }
}
