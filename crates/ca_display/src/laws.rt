//! What is written with display data is read again.
ghost use Rattle.std.specs.Prelude.{◌≡◌, ℕ, ◌++◌, List, length, Ok};
ghost use Rattle.ca_dbr.specs.declared.data_type.Form.TheVariants as plain_form;
ghost use Rattle.ca_dbr.specs.declared.data_type.BaseType.{BaseType};
ghost use Rattle.ca_dbr.specs.declared.value.Meta.{Meta};
ghost use Rattle.ca_dbr.specs.DisplayData.{DisplayData, IsData};
ghost use Rattle.ca_dbr.specs.Elements.{Elements, base_of, count_of, IsValue};
ghost use Rattle.ca_dbr.specs.Reading.{carried, IsMeta};
ghost use Rattle.ca_display.specs.declared.display_type.DisplayType.{DisplayType};
ghost use Rattle.ca_display.specs.declared.image_type.ImageType.{ImageType};
ghost use Rattle.ca_display.specs.Types.{base_in, image_number};
ghost use Rattle.ca_display.specs.Conversion.{display_shown};
ghost use Rattle.ca_display.specs.Image.{display_image, image_in, size_in};
ghost use Rattle.ca_display.specs.Reading.{carried_data, ReadsDisplay};

/// What was written is read again, with the display data that its type carries and whatever is
/// after it. A number names one type, and an image has the size that is told. What a read shows is
/// of its type, and as many elements as are asked for.
pub fn one_display()
    ensures again { (t : DisplayType) (e : Elements) (m : Meta) (d : DisplayData)
        (behind : List ℕ) → t.base ≡ base_of e → IsValue e → IsMeta m → IsData d
        → ReadsDisplay t (count_of e) (display_image t e m d ++ behind) e
        (carried plain_form.Status m) (carried_data t.base t.form d) }
    ensures size { (t : ImageType) (e : Elements) (m : Meta) (d : DisplayData)
        → base_in t ≡ base_of e → IsValue e → IsData d
        → length (image_in t e m d) ≡ size_in t (count_of e) }
    ensures numbers { (s t : ImageType) → image_number s ≡ image_number t → s ≡ t }
    ensures shown { (d : DisplayData) (e f : Elements) (count : ℕ) (b : BaseType)
        → display_shown d e count b ≡ Ok f → (base_of f ≡ b) × (count_of f ≡ count) }
{}
