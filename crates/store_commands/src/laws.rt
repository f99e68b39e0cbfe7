//! Laws of new stores. Each function does nothing.
ghost use Rattle.store_commands.specs.Fresh.{FreshFilesStand};

/// The file of a new store over bytes of 0 stands for the state of one.
pub fn fresh_files_stand()
    ensures { FreshFilesStand }
{}
