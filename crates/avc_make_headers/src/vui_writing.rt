//! VUI parameters and HRD parameters, written (E.1.1, E.1.2).

ghost use Rattle.avc_make_headers.specs.VuiWriting.{IsAspect, IsChromaLocation, IsColour, IsHrd};
ghost use Rattle.avc_make_headers.specs.VuiWriting.{IsHrdEntry, IsRestriction, IsSampleSize};
ghost use Rattle.avc_make_headers.specs.VuiWriting.{IsTiming, IsVideoSignal, IsVui, aspect_bits};
ghost use Rattle.avc_make_headers.specs.VuiWriting.{chroma_location_bits, colour_bits, hrd_bits};
ghost use Rattle.avc_make_headers.specs.VuiWriting.{hrd_entry_bits, restriction_bits};
ghost use Rattle.avc_make_headers.specs.VuiWriting.{sample_size_bits, timing_bits};
ghost use Rattle.avc_make_headers.specs.VuiWriting.{video_signal_bits, vui_bits};

use crate::part::{Part, put_each, put_optional, put_two, put_where};
use avc_params::{
    ChromaLocation, Colour, Hrd, HrdEntry, Restriction, SampleAspect, SampleSize, Timing,
    VideoSignal, Vui,
};
use avc_rbsp::BitMaker;
use avc_types::OutOfMemory;

impl Part for SampleSize {
    ghost bits = { sample_size_bits };

    ghost fits = { IsSampleSize };

    fn put(&self, maker: &mut BitMaker) -> Result<(), OutOfMemory> {
        maker.put(16, self.sar_width as u32)?;
        maker.put(16, self.sar_height as u32)?;
        Ok(())
    }
}

impl Part for SampleAspect {
    ghost bits = { aspect_bits };

    ghost fits = { IsAspect };

    fn put(&self, maker: &mut BitMaker) -> Result<(), OutOfMemory> {
        maker.put(8, self.aspect_ratio_idc as u32)?;
        put_where(maker, &self.extended)?;
        Ok(())
    }
}

impl Part for Colour {
    ghost bits = { colour_bits };

    ghost fits = { IsColour };

    fn put(&self, maker: &mut BitMaker) -> Result<(), OutOfMemory> {
        maker.put(8, self.colour_primaries as u32)?;
        maker.put(8, self.transfer_characteristics as u32)?;
        maker.put(8, self.matrix_coefficients as u32)?;
        Ok(())
    }
}

impl Part for VideoSignal {
    ghost bits = { video_signal_bits };

    ghost fits = { IsVideoSignal };

    fn put(&self, maker: &mut BitMaker) -> Result<(), OutOfMemory> {
        maker.put(3, self.video_format as u32)?;
        maker.flag(self.video_full_range_flag)?;
        put_optional(maker, &self.colour)?;
        Ok(())
    }
}

impl Part for ChromaLocation {
    ghost bits = { chroma_location_bits };

    ghost fits = { IsChromaLocation };

    fn put(&self, maker: &mut BitMaker) -> Result<(), OutOfMemory> {
        put_two(
            maker,
            self.chroma_sample_loc_type_top_field,
            self.chroma_sample_loc_type_bottom_field,
        )
    }
}

impl Part for Timing {
    ghost bits = { timing_bits };

    ghost fits = { IsTiming };

    fn put(&self, maker: &mut BitMaker) -> Result<(), OutOfMemory> {
        maker.put(32, self.num_units_in_tick)?;
        maker.put(32, self.time_scale)?;
        maker.flag(self.fixed_frame_rate_flag)?;
        Ok(())
    }
}

impl Part for HrdEntry {
    ghost bits = { hrd_entry_bits };

    ghost fits = { IsHrdEntry };

    fn put(&self, maker: &mut BitMaker) -> Result<(), OutOfMemory> {
        maker.ue(self.bit_rate_value_minus1)?;
        maker.ue(self.cpb_size_value_minus1)?;
        maker.flag(self.cbr_flag)?;
        Ok(())
    }
}

// hrd_parameters (E.1.2)
impl Part for Hrd {
    ghost bits = { hrd_bits };

    ghost fits = { IsHrd };

    fn put(&self, maker: &mut BitMaker) -> Result<(), OutOfMemory> {
        let entries = self.entries.as_slice();
        // cpb_cnt_minus1
        maker.ue(entries.len() as u32 - 1)?;
        maker.put(4, self.bit_rate_scale as u32)?;
        maker.put(4, self.cpb_size_scale as u32)?;
        put_each(maker, entries)?;
        maker.put(5, self.initial_cpb_removal_delay_length_minus1 as u32)?;
        maker.put(5, self.cpb_removal_delay_length_minus1 as u32)?;
        maker.put(5, self.dpb_output_delay_length_minus1 as u32)?;
        maker.put(5, self.time_offset_length as u32)?;
        Ok(())
    }
}

impl Part for Restriction {
    ghost bits = { restriction_bits };

    ghost fits = { IsRestriction };

    fn put(&self, maker: &mut BitMaker) -> Result<(), OutOfMemory> {
        maker.flag(self.motion_vectors_over_pic_boundaries_flag)?;
        maker.ue(self.max_bytes_per_pic_denom)?;
        maker.ue(self.max_bits_per_mb_denom)?;
        maker.ue(self.log2_max_mv_length_horizontal)?;
        maker.ue(self.log2_max_mv_length_vertical)?;
        maker.ue(self.max_num_reorder_frames)?;
        maker.ue(self.max_dec_frame_buffering)?;
        Ok(())
    }
}

// vui_parameters (E.1.1)
impl Part for Vui {
    ghost bits = { vui_bits };

    ghost fits = { IsVui };

    fn put(&self, maker: &mut BitMaker) -> Result<(), OutOfMemory> {
        put_optional(maker, &self.aspect)?;
        put_optional(maker, &self.overscan_appropriate_flag)?;
        put_optional(maker, &self.video_signal)?;
        put_optional(maker, &self.chroma_location)?;
        put_optional(maker, &self.timing)?;
        put_optional(maker, &self.nal_hrd)?;
        put_optional(maker, &self.vcl_hrd)?;
        put_where(maker, &self.low_delay_hrd_flag)?;
        maker.flag(self.pic_struct_present_flag)?;
        put_optional(maker, &self.restriction)?;
        Ok(())
    }
}
