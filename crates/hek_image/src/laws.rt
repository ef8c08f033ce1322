//! Laws of images.
ghost use Rattle.hek_image.specs.Laws.{ImagesAreExact};

/// A schedule is loaded from its image, and from its version 1 image if it has one. What loads is one of the two images
/// of the schedule that it gives. No image is longer than 22,083,414 bytes.
pub fn images_are_exact()
    ensures { ImagesAreExact }
{}
