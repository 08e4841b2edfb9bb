//! The words of an entry.

ghost use Rattle.std.specs.Prelude.{◌≡◌, ◌<◌, ◌∷◌, MatchOption, length};
ghost use Rattle.text_line.specs.Places.{placed};
ghost use Rattle.scen_text.specs.Spelling.{HasWords};
ghost use Rattle.scen_text.specs.Progress.{plain_words, widened, HasWordsBefore};

use crate::entry::ByteRange;
use text_line::{FieldsAt, PlacedField};

/// The words of an entry: its fields, those of the map's name as one.
#[derive(Clone, Copy)]
pub(crate) struct Words<'a> {
    pub bucket: PlacedField<'a>,
    pub name: ByteRange,
    pub w: PlacedField<'a>,
    pub h: PlacedField<'a>,
    pub sx: PlacedField<'a>,
    pub sy: PlacedField<'a>,
    pub gx: PlacedField<'a>,
    pub gy: PlacedField<'a>,
    pub length: PlacedField<'a>,
}

impl<'a> Words<'a> {
    /// The words of an entry with this first field and these others, where nine fields are there.
    pub fn of(bucket: PlacedField<'a>, mut fields: FieldsAt<'a>) -> Option<Words<'a>>
        ensures { let all = placed bucket.entry ∷ fields.entry in
            MatchOption result (length all < 9) (λ words. HasWords all (plain_words words)) }
    {
        let mut words = Words::first(bucket, &mut fields)?;
        for field in fields {
            words = words.widened(field);
        }
        Some(words)
    }

    /// The words where the entry ends after nine fields, and the fields after these.
    fn first(bucket: PlacedField<'a>, fields: &mut FieldsAt<'a>) -> Option<Words<'a>>
        ensures { let all = placed bucket.entry ∷ fields.old in
            MatchOption result (length all < 9) (λ words. HasWordsBefore all (plain_words words) fields.new) }
    {
        let name = fields.next()?;
        Some(Words {
            bucket,
            name: ByteRange {
                start: name.start,
                end: name.end,
            },
            w: fields.next()?,
            h: fields.next()?,
            sx: fields.next()?,
            sy: fields.next()?,
            gx: fields.next()?,
            gy: fields.next()?,
            length: fields.next()?,
        })
    }

    /// The words where one more field follows: the first of the last seven joins the name.
    fn widened(self, field: PlacedField<'a>) -> Words<'a>
        ensures { plain_words result ≡ widened (plain_words self.entry) (placed field.entry) }
    {
        Words {
            bucket: self.bucket,
            name: ByteRange {
                start: self.name.start,
                end: self.w.end,
            },
            w: self.h,
            h: self.sx,
            sx: self.sy,
            sy: self.gx,
            gx: self.gy,
            gy: self.length,
            length: field,
        }
    }
}
