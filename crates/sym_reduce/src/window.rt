//! The first files, which are read before they are joined.
ghost use Rattle.std.specs.Prelude.{◌≡◌, ◌≤◌, ℕ, List, IfSome, length, map, take, vec_len};
ghost use Rattle.std.specs.List.{All};
ghost use Rattle.std.specs.String.{string_bytes};
ghost use Rattle.sym_base.specs.declared.limits.TheConstants as limits;
ghost use Rattle.sym_files.specs.Passing.{MayAll};
ghost use Rattle.sym_reduce.specs.Joining.{IsUnreadAt};

use crate::error::ReduceErr;
use crate::run_files::read_file;
use std::alloc::Global;
use sym_base::Store;

/// The first files are read until they have more bytes than these.
const WINDOW_BYTES: u64 = 256 << 20;

/// The bytes of the first files, in order, and why the next one isn't among them, where it has a
/// problem.
#[derive(Drop)]
pub(crate) struct Window {
    pub(crate) texts: Vec<Vec<u8>>,
    pub(crate) stop: Option<ReduceErr>,
}

/// The files of the first of these names, in order: all of them, or those up to the one that has a
/// problem, or that takes their bytes beyond `WINDOW_BYTES`, which is the last one then. Each is read
/// once.
pub(crate) fn read_first<F: Store>(
    alloc: Global,
    files: &mut F,
    names: &[String],
    max_bytes: u64,
) -> Window
    requires { max_bytes ≤ limits.FILE_MAX }
    ensures may { let names = map string_bytes names.now in
        MayAll (F.holds files.old) (take (vec_len result.texts) names)
        (map (λ text. text.items) result.texts.items) }
    ensures fit { All (λ text. length text.items ≤ max_bytes) result.texts.items }
    ensures stop { let names = map string_bytes names.now in
        let before = F.faults files.old in
        let after = F.faults files.new in
        IfSome result.stop (IsUnreadAt max_bytes (F.holds files.old) names before after
        (vec_len result.texts)) }
    ensures same { F.holds files.new ≡ F.holds files.old }
    ensures later { (other : List ℕ) → F.faults files.old other ≤ F.faults files.new other }
{
    let mut texts = Vec::new(alloc);
    let mut bytes = 0;
    'files: for (file, name) in names.iter().enumerate() {
        let text = match read_file(alloc, files, name.as_str(), file as u64, max_bytes) {
            Ok(text) => text,
            Err(why) => {
                return Window {
                    texts,
                    stop: Some(why),
                };
            }
        };
        bytes += text.len() as u64;
        if texts.push(text).is_err() {
            return Window {
                texts,
                stop: Some(ReduceErr::NoMemory),
            };
        }
        if WINDOW_BYTES < bytes {
            return Window { texts, stop: None };
        }
    }
    Window { texts, stop: None }
}
