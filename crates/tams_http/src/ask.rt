//! What a request asks for.
use disk_trait::Text;
use media_rows::Command;
use tams_json::BodyFault;

/// What a request asks for: a command of the library, or the bytes of the object with this id.
#[derive(Drop)]
pub enum Ask {
    Run(Command),
    PutMedia(Text),
    GetMedia(Text),
}

/// Why a request asks for nothing: it is refused, with one of the refusals 6 to 20, or there was no memory.
pub type AskFault = BodyFault;
