//! What holds of payloads whatever record they are of.
ghost use Rattle.std.specs.Prelude.{◌≡◌, ◌+◌, ◌≤◌, length};
ghost use Rattle.prv_codec.specs.declared.form.Form.TheVariants.{One, Two};
ghost use Rattle.prv_record.specs.Fields.{HasFields};
ghost use Rattle.prv_record.specs.Payloads.{payload_length, HasSmallLines};
ghost use Rattle.prv_record.specs.Spelling.{payload};

use crate::limits::MAX_PAYLOAD;
use crate::raw::Raw;

/// In the first form a record takes as many bytes as `payload_length` says.
pub fn payloads_have_this_length(raw: &Raw)
    requires { HasFields raw.now }
    ensures { length (payload One raw.now) ≡ payload_length raw.now }
{}

/// In the second form it takes at most 17 more, where the numbers of its log are small: the entry
/// and the words of two inputs may take a byte more each.
pub fn payloads_of_small_logs_have_at_most_this_length(raw: &Raw)
    requires fields { HasFields raw.now }
    requires lines { HasSmallLines raw.now.proof }
    requires small { payload_length raw.now ≤ MAX_PAYLOAD }
    ensures { length (payload Two raw.now) ≤ payload_length raw.now + 17 }
{}
