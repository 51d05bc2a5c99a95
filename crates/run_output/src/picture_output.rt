ghost use Rattle.std.specs.Prelude.{◌≡◌, [], ◌++◌, IfOk};
ghost use Rattle.journal_text.specs.Picture.{picture_text};
ghost use Rattle.run_output.specs.Pieces.{Adds, Puts};

use crate::output::put_images;
use crate::page::Page;
use gpu_io::{Failed, Sink};
use gpu_store::Images;
use gpu_word::Memory;
use std::alloc::Global;
use std::marker::Model;

// Puts a text, and then the lines of each image.
fn put_pictures<K: Sink>(
    page: &mut Page,
    sink: &mut K,
    head: &[u8],
    images: &Images,
) -> Result<(), Failed>
    ensures { Puts K.written K.faults sink.old page.old.gathered sink.new page.new.gathered result
        (head.now ++ picture_text images.now) }
{
    page.put_text(sink, head)?;
    put_images(page, sink, images)
}

// Writes a text and the lines of each image after it, by way of an empty page.
fn write_pictures<K: Sink>(
    page: &mut Page,
    sink: &mut K,
    head: &[u8],
    images: &Images,
) -> Result<(), Failed>
    requires { page.old.gathered ≡ [] }
    ensures { Adds K.written K.faults sink.old sink.new result
        (head.now ++ picture_text images.now) }
{
    put_pictures(page, sink, head, images)?;
    page.give(sink)
}

/// A text and images after it, with all memory that writing them takes, seen as the text of both.
#[derive(Drop)]
pub struct PictureOutput {
    head: Vec<u8>,
    images: Images,
    page: Page,
}

impl Model for PictureOutput {
    ghost use Rattle.std.specs.Prelude.{◌≡◌, ℕ, List, [], ◌++◌};
    ghost use Rattle.journal_text.specs.Picture.{picture_text};
    ghost use Rattle.run_output.specs.Page.{blank_page};

    ghost Value = { List ℕ };

    ghost view = { λ output. output.head.items ++ picture_text output.images };

    ghost invariant = { λ output. output.page ≡ blank_page };
}

impl PictureOutput {
    /// Takes all memory that writing a text and images takes.
    pub fn make(alloc: Global, head: Vec<u8>, images: Images) -> Result<PictureOutput, Memory>
        ensures { IfOk result (λ output. output ≡ head.items ++ picture_text images) }
    {
        let page = Page::make(alloc)?;
        Ok(PictureOutput { head, images, page })
    }

    /// Writes the text, and the lines of each image. After a fault a front of both stands.
    pub fn write<K: Sink>(self, sink: &mut K) -> Result<(), Failed>
        ensures { Adds K.written K.faults sink.old sink.new result self }
    {
        let PictureOutput {
            head,
            images,
            mut page,
        } = self;
        write_pictures(&mut page, sink, &head, &images)
    }
}
