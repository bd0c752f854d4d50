//! Laws on payloads and conversions: what was written is read again, numbers and their texts agree,
//! and what a read shows and why it may be refused.
ghost use Rattle.std.specs.Prelude.{◌≡◌, ℕ, ℤ, ◌++◌, List, length, Some, Ok, FitsSigned, Err};
ghost use Rattle.std.specs.Int.{w64};
ghost use Rattle.ca_dbr.specs.declared.data_type.BaseType.{BaseType};
ghost use Rattle.ca_dbr.specs.Number.{text_of, number_in, number_text, IsNumberText};
ghost use Rattle.ca_dbr.specs.Shown.{shown};
ghost use Rattle.ca_dbr.specs.Conversion.{converted, HasConversion, IsFault};
ghost use Rattle.ca_text.specs.declared.refusal.Refusal.{Refusal};
ghost use Rattle.ca_text.specs.declared.refusal.Refusal.TheVariants.{NoConvert};
ghost use Rattle.ca_dbr.specs.declared.data_type.DataType.{DataType};
ghost use Rattle.ca_dbr.specs.declared.value.Meta.{Meta};
ghost use Rattle.ca_dbr.specs.Types.{type_at, type_number, size_of_image};
ghost use Rattle.ca_dbr.specs.Elements.{Elements, base_of, count_of, IsValue};
ghost use Rattle.ca_dbr.specs.Image.{image};
ghost use Rattle.ca_dbr.specs.Reading.{carried, IsMeta, Reads};

/// What was written is read again, with the metadata that its type carries and whatever
/// is after it, and bytes are read in one way. A number names one type, and an image has
/// the size that is told.
pub fn one_reading()
    ensures again { (t : DataType) (e : Elements) (m : Meta) (behind : List ℕ) → t.base ≡ base_of e
        → IsValue e → IsMeta m → Reads t (count_of e) (image t e m ++ behind) e (carried t.form m) }
    ensures only { (t : DataType) (count : ℕ) (bytes : List ℕ) (e f : Elements) (m n : Meta)
        → Reads t count bytes e m → Reads t count bytes f n → (e ≡ f) × (m ≡ n) }
    ensures size { (t : DataType) (e : Elements) (m : Meta) → t.base ≡ base_of e → IsValue e
        → length (image t e m) ≡ size_of_image t (count_of e) }
    ensures numbers { (s t : DataType) → type_number s ≡ type_number t → s ≡ t }
    ensures named { (t : DataType) → type_at (type_number t) ≡ t }
{}

/// A text is read as the number that it writes, and as no other; a number's own text fits a STRING
/// and is read as that number.
pub fn one_number()
    ensures read { (text : List ℕ) (z : ℤ) → IsNumberText text z → number_in text ≡ Some z }
    ensures only { (text : List ℕ) (z : ℤ) → number_in text ≡ Some z → IsNumberText text z }
    ensures own { (z : ℤ) → FitsSigned w64 z → number_in (text_of (number_text z)) ≡ Some z }
    ensures fits { (z : ℤ) → FitsSigned w64 z → length (number_text z) ≡ 40 }
{}

/// A read shows elements of the wanted type, as many as are wanted; and what it shows
/// of a value is a value.
pub fn wanted_shown()
    ensures valued { (e : Elements) (count : ℕ) (b : BaseType) (f : Elements) → IsValue e
        → shown e count b ≡ Ok f → IsValue f }
    ensures wanted { (e : Elements) (count : ℕ) (b : BaseType) (f : Elements)
        → shown e count b ≡ Ok f → (base_of f ≡ b) × (count_of f ≡ count) }
{}

/// No conversion is told exactly if there is none; every other refusal tells of
/// an element at fault.
pub fn why_not_shown()
    ensures none { (e : Elements) (count : ℕ) (b : BaseType) → (HasConversion (base_of e) b → ⊥)
        → shown e count b ≡ Err NoConvert }
    ensures fault { (e : Elements) (count : ℕ) (b : BaseType) → HasConversion (base_of e) b
        → (r : Refusal) → shown e count b ≡ Err r → IsFault r }
    ensures converted_none { (e : Elements) (b : BaseType) → (HasConversion (base_of e) b → ⊥)
        → converted e b ≡ Err NoConvert }
    ensures converted_fault { (e : Elements) (b : BaseType) → HasConversion (base_of e) b
        → (r : Refusal) → converted e b ≡ Err r → IsFault r }
{}
