//! Comments behind a schedule.
ghost use Rattle.std.specs.Prelude.{◌≡◌, ◌++◌, [], codes, if◌then◌else◌, OnOk, OnErr};
ghost use Rattle.base.specs.Texts.{KeepsText};
ghost use Rattle.schedule.specs.Comments.{commented};

use std::alloc::AllocError as NoMemory;

/// Adds each line of a comment behind `# ` to a text.
#[tactic(auto, using(base::proofs::Texts::kept_itself, base::proofs::Texts::kept_more))]
pub fn add_comments(text: &mut Vec<u8>, comment: &[u8]) -> Result<(), NoMemory>
    ensures added { OnOk result (text.new.items ≡ text.old.items ++ commented comment.now) }
    ensures kept { OnErr result (KeepsText text.old.items text.new.items) }
{
    let mut begins = true;
    for byte in comment {
        begin_line(text, begins)?;
        text.push(*byte)?;
        begins = *byte == b'\n';
    }
    Ok(())
}

/// Adds `# ` where a line begins.
fn begin_line(text: &mut Vec<u8>, begins: bool) -> Result<(), NoMemory>
    ensures added { OnOk result (text.new.items ≡ text.old.items ++ (if begins then codes "# " else [])) }
    ensures kept { OnErr result (text.new.items ≡ text.old.items) }
{
    if begins {
        return text.extend_from_slice(b"# ");
    }
    Ok(())
}
