// The load commands of a Mach-O file: tests 36 to 40 of request 4, and the part of the file that is its signature.
//
// A 64-bit little-endian file opens with a header, and its load commands stand behind it, each where the one before ends. The file is
// refused where the header is cut or another, where there are too many commands or one is malformed, where there is no
// LC_CODE_SIGNATURE, a second one or one of another size, and where the part that it names is not inside the file. Nothing else of the
// header and of the commands is looked at. The table of tests is specs/Rows.antt.
#![tactic(auto)]

mod command;

ghost use Rattle.std.specs.Prelude.{◌≡◌, ◌≤◌};
ghost use Rattle.refusals.specs.Refusals.{first, accepted};
ghost use Rattle.refusals.specs.Named.{test_answer};
ghost use Rattle.layout.specs.MachO.{ncmds};
ghost use Rattle.macho.specs.Rows.{most_commands, command_rows, walk_rows, SignatureIn};
ghost use Rattle.macho.specs.Commands.{First, SpanTested};

use command::Command;
use layout::macho::{LinkeditData, MachHeader};
use refusals::Refusal;

// The most load commands that are read.
const MOST_COMMANDS: usize = 4096;

// Tests 36 to 40.
pub fn tested(file: &[u8]) -> Result<(), Refusal>
    ensures { test_answer result ≡ first (walk_rows file.now) accepted }
{
    signature_span(file)?;
    Ok(())
}

// Where the signature lies in the file, from `start` up to `end`, and the position of the command that says so.
#[derive(Clone, Copy)]
pub struct Span {
    pub command: usize,
    pub start: usize,
    pub end: usize,
}

// Tests 36 to 40, and where they pass the signature's part of the file.
pub fn signature_span(file: &[u8]) -> Result<Span, Refusal>
    ensures { SignatureIn file.now result }
{
    commands_tested(file)?;
    span_tested(file)
}

// Tests 36 and 37: the header, and every command in its place.
fn commands_tested(file: &[u8]) -> Result<(), Refusal>
    ensures { test_answer result ≡ first (command_rows file.now) accepted }
{
    if file.len() < MachHeader::HEAD {
        return Err(Refusal::MachHeader);
    }
    let header = MachHeader::read(file);
    if header.magic != MachHeader::MAGIC {
        return Err(Refusal::MachHeader);
    }
    if MOST_COMMANDS < header.ncmds {
        return Err(Refusal::LoadCommand(MOST_COMMANDS));
    }
    if let Some(command) = first_command(file, |command| command.is_malformed()) {
        return Err(Refusal::LoadCommand(command.index));
    }
    Ok(())
}

// Tests 38 to 40: the one LC_CODE_SIGNATURE, and the part of the file that it names.
fn span_tested(file: &[u8]) -> Result<Span, Refusal>
    requires { ncmds file.now ≤ most_commands }
    ensures { SpanTested file.now result }
{
    let Some(signature) = first_command(file, |command| command.is_signature()) else {
        return Err(Refusal::NoSignature);
    };
    let index = signature.index;
    if let Some(command) = first_command(file, |command| command.is_wrong_signature(index)) {
        return Err(Refusal::SignatureCommand(command.index));
    }
    let data = LinkeditData::read(file, signature.at);
    let end = data.dataoff + data.datasize;
    if file.len() < end {
        return Err(Refusal::SignatureOutside(index));
    }
    Ok(Span {
        command: index,
        start: data.dataoff,
        end,
    })
}

// The first command at which the test holds.
fn first_command<'a, F: Fn(Command<'a>) -> bool>(file: &'a [u8], test: F) -> Option<Command<'a>>
    requires few { ncmds file.now ≤ most_commands }
    requires callable { F.IsAlwaysCallable test }
    ensures { First (F.post test) file.now result }
{
    let mut at = MachHeader::HEAD;
    for index in 0..MachHeader::read(file).ncmds {
        let command = Command { file, index, at };
        if test(command) {
            return Some(command);
        }
        at += command.size();
    }
    None
}
