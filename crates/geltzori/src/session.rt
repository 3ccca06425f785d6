// A session in the order that it must have: a unit, its masks, then the calls on it.
ghost use Rattle.std.specs.Prelude.{◌≡◌, ◌<◌, [], ◌∷◌, ◌++◌, IfOk, Some, None, Err, vec_len, codes, OnOk};
ghost use Rattle.geltzori.specs.declared.command.Call.TheVariants.{Scan as ScanOf};
ghost use Rattle.geltzori.specs.declared.command.Command.TheVariants.{Call as AnyCall, Mask, Scan as NewScan, Unit as NewUnit};
ghost use Rattle.geltzori.specs.declared.faults.Flaw.TheVariants.{LateMask, SecondUnit};

use crate::command::{Call, Command, parse};
use crate::faults::{Fault, Flaw, Line};
use std::alloc::{AllocError, Global};
use std::rt::Files;

#[derive(Drop)]
pub struct Session<'a> {
    pub depth: u8,
    pub masks: Vec<MaskCall<'a>>,
    pub calls: Vec<Call<'a>>,
    // The text so far of a scan whose end line has not come.
    scan: Option<Vec<u8>>,
}

// Whether a mask is one too many is known only when it is laid, so it keeps its line.
#[derive(Drop)]
pub struct MaskCall<'a> {
    pub line: Line<'a>,
    pub bytes: Vec<u8>,
}

impl<'a> Session<'a> {
    // The session of a text, or none where the text has no call.
    pub fn parse(
        rt: &(impl Files + AllocGlobal),
        text: &'a str,
    ) -> Result<Option<Session<'a>>, Fault> {
        let mut session = None;
        for (at, text) in text.lines().enumerate() {
            let line = Line {
                number: at.saturating_add(1),
                text,
            };
            session = with_line(rt, session, line).map_err(|flaw| line.fault(rt.alloc(), flaw))?;
        }
        if let Some(session) = &mut session {
            session.end_scan()?;
        }
        Ok(session)
    }

    fn new(heap: Global, depth: u8) -> Session<'a> {
        Session {
            depth,
            masks: Vec::new(heap),
            calls: Vec::new(heap),
            scan: None,
        }
    }

    fn read(&mut self, rt: &(impl Files + AllocGlobal), line: Line<'a>) -> Result<(), Flaw> {
        if let Some(text) = self.scan.take() {
            return Ok(self.add_scan_line(text, line.text)?);
        }
        match parse(rt, line)? {
            Some(command) => self.add(rt.alloc(), line, command),
            None => Ok(()),
        }
    }

    fn add(&mut self, heap: Global, line: Line<'a>, command: Command<'a>) -> Result<(), Flaw>
        ensures depth { self.new.depth ≡ self.old.depth }
        ensures placed { elim command.entry [ NewUnit _ ↦ result ≡ Err SecondUnit | Mask _ ↦ (0 < vec_len self.old.calls → result ≡ Err LateMask) | AnyCall call ↦ IfOk result (λ _. self.new.calls.items ≡ self.old.calls.items ++ call ∷ []) | NewScan ↦ self.new.calls.items ≡ self.old.calls.items ] }
    {
        match command {
            Command::Unit { .. } => return Err(Flaw::SecondUnit),
            Command::Mask(_) if !self.calls.is_empty() => return Err(Flaw::LateMask),
            Command::Mask(bytes) => self.masks.push(MaskCall { line, bytes })?,
            Command::Call(call) => self.calls.push(call)?,
            Command::Scan => self.scan = Some(Vec::new(heap)),
        }
        Ok(())
    }

    // Lengthens the text of a scan by a line, comments and all. Its end line makes it a call.
    fn add_scan_line(&mut self, mut text: Vec<u8>, line: &str) -> Result<(), AllocError>
        ensures { OnOk result (elim self.new.scan [ None ↦ line.now ≡ codes "E" | Some longer ↦ longer.items ≡ (text.items ++ line.now) ++ 10 ∷ [] ]) }
    {
        push_line(&mut text, line)?;
        self.scan = Some(text);
        if line == "E" {
            self.end_scan()?;
        }
        Ok(())
    }

    // A scan without an end line is a call too: it is for the unit to refuse.
    fn end_scan(&mut self) -> Result<(), AllocError>
        ensures ended { self.new.scan ≡ None }
        ensures placed { OnOk result (self.new.calls.items ≡ elim self.old.scan [ None ↦ self.old.calls.items | Some text ↦ self.old.calls.items ++ ScanOf text ∷ [] ]) }
    {
        if let Some(text) = self.scan.take() {
            self.calls.push(Call::Scan(text))?;
        }
        Ok(())
    }
}

fn push_line(text: &mut Vec<u8>, line: &str) -> Result<(), AllocError>
    ensures { OnOk result (text.new.items ≡ (text.old.items ++ line.now) ++ 10 ∷ []) }
{
    text.extend_from_slice(line.as_bytes())?;
    text.push(b'\n')?;
    Ok(())
}

fn with_line<'a>(
    rt: &(impl Files + AllocGlobal),
    session: Option<Session<'a>>,
    line: Line<'a>,
) -> Result<Option<Session<'a>>, Flaw> {
    let Some(mut session) = session else {
        return begun(rt, line);
    };
    session.read(rt, line)?;
    Ok(Some(session))
}

// The session that a line begins, or none where the line has no call.
fn begun<'a>(rt: &(impl Files + AllocGlobal), line: Line<'a>) -> Result<Option<Session<'a>>, Flaw> {
    match parse(rt, line)? {
        None => Ok(None),
        Some(Command::Unit { depth }) => Ok(Some(Session::new(rt.alloc(), depth))),
        Some(_) => Err(Flaw::NotUnit),
    }
}
