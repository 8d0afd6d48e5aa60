// What is told on standard error.
ghost use Rattle.std.specs.Prelude.{◌≡◌, ◌++◌, IsTrue};
ghost use Rattle.photon_cli.specs.Terms.{Rose, message, status_of};

use clap::Error;
use outside::Sink;
use report_text::write_all;
use site_run::{RunFault, status, tell};
use std::alloc::Global;

/// Tells a fault, and answers its exit status. Where telling fails, nothing more is done about it.
pub fn give_up<K: Sink>(err: &mut K, fault: &RunFault) -> u8
    ensures status { result ≡ status_of fault.now }
    ensures told { IsTrue K.tells → (Rose (K.faults err.old) (K.faults err.new) → ⊥) → K.held err.new ≡ K.held err.old ++ message fault.now }
{
    let _ = tell(err, fault);
    status(fault)
}

/// Tells what the parser of words says. Where there is no memory for its text, nothing is told.
pub fn tell_refusal<K: Sink>(alloc: Global, err: &mut K, error: &Error) {
    if let Ok(text) = error.to_string(alloc) {
        let _ = write_all(err, text.as_bytes());
    }
}
