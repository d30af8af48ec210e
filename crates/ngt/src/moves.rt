// Document 02's moves between versions for C: into a second buffer, whose drive the image then is.
ghost use Rattle.std.specs.Prelude.{◌≡◌};
ghost use Rattle.packed.specs.Image.{drive_in};
ghost use Rattle.ngt.specs.Moves.{MovedUp, MovedDown};

// Version 1 to version 2.
pub fn ngt_move_up(
    image: &mut [u8; 144],
    vol: &[u8],
    second: &mut [u8],
    answer: &mut [u8; 16],
) -> u32
    ensures { MovedUp (drive_in image.old) vol.now second.old
        image.old result second.new image.new answer.new }
{
    let done = moving::up(crate::opened(*image), vol, second);
    crate::hand_back(image, answer, done, done.answer.is_ok())
}

// Version 2 to version 1.
pub fn ngt_move_down(
    image: &mut [u8; 144],
    vol: &[u8],
    second: &mut [u8],
    answer: &mut [u8; 16],
) -> u32
    ensures { MovedDown (drive_in image.old) vol.now second.old
        image.old result second.new image.new answer.new }
{
    let done = moving::down(crate::opened(*image), vol, second);
    crate::hand_back(image, answer, done, done.answer.is_ok())
}
