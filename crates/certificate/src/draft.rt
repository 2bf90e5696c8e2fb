// The bytes of a certificate that is being written.
ghost use Rattle.std.specs.Prelude.{All, ◌≡◌, ◌+◌, ◌*◌, ◌≤◌, ◌++◌, length};
ghost use Rattle.std.specs.List.{flat_map};
ghost use Rattle.certificate.specs.Drafts.{drafted};

use crate::encode::Encode;
use crate::layout::MOST_BYTES;
use arrayvec::ArrayVec;

// Room for the longest certificate. Fixed memory: the writer may not allocate.
pub(crate) type Draft = ArrayVec<u8, MOST_BYTES>;

// Writes the items behind what the draft has.
pub(crate) fn put<T: Encode<N>, const N: usize>(draft: &mut Draft, items: &[T])
    requires { length (drafted draft.old) + N * length items.now ≤ 4096 }
    ensures after { drafted draft.new ≡ drafted draft.old ++ flat_map T.encoded items.now }
    ensures count { length (drafted draft.new) ≡ length (drafted draft.old) + N * length items.now }
    ensures fits { All T.fits items.now }
{
    for item in items {
        draft.try_extend_from_slice(&item.encode()).unwrap(); // there is room
    }
}
