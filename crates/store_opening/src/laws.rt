//! Laws of what opening answers. Each function does nothing.
ghost use Rattle.store_opening.specs.Laws.{IsOneDamage, KeptStands, RefusedStandForNone};

use media_journal::one_reading;

/// An image that is damaged stands for no state, and that of a store is damaged at one place at most. One
/// that stands for a state by a half of another form stands for none by one of the form in use.
pub fn damaged_images_stand_for_none()
    ensures none { RefusedStandForNone }
    ensures place { IsOneDamage }
{
    one_reading();
}

/// An image of which a library and a journal are kept stands for their state, with the bytes of the
/// library's objects in it.
pub fn kept_images_stand()
    ensures { KeptStands }
{}
