//! VUI parameters and HRD parameters, read (E.1.1, E.1.2).

ghost use Rattle.std.specs.Prelude.{◌≡◌, ◌+◌};
ghost use Rattle.avc_bits.specs.Bits.{times};
ghost use Rattle.avc_bits.specs.Reader.{Reads};
ghost use Rattle.avc_params.specs.VuiReading.{chroma_location, colour, hrd, hrd_entry, restriction};
ghost use Rattle.avc_params.specs.VuiReading.{sample_aspect, sample_size, timing, video_signal};
ghost use Rattle.avc_params.specs.VuiReading.{vui};

use crate::syntax::{Syntax, read_optional, read_times, read_where};
use crate::vui::{
    ChromaLocation, Colour, Hrd, HrdEntry, Restriction, SampleAspect, SampleSize, Timing,
    VideoSignal, Vui,
};
use avc_bits::BitReader;
use avc_types::Fault;

impl Syntax for SampleSize {
    ghost syntax = { sample_size };

    fn read(reader: &mut BitReader) -> Result<SampleSize, Fault> {
        Ok(SampleSize {
            sar_width: reader.u(16)? as u16,
            sar_height: reader.u(16)? as u16,
        })
    }
}

impl Syntax for SampleAspect {
    ghost syntax = { sample_aspect };

    fn read(reader: &mut BitReader) -> Result<SampleAspect, Fault> {
        let aspect_ratio_idc = reader.u(8)? as u8;
        Ok(SampleAspect {
            aspect_ratio_idc,
            extended: read_where(reader, aspect_ratio_idc == 255)?,
        })
    }
}

impl Syntax for Colour {
    ghost syntax = { colour };

    fn read(reader: &mut BitReader) -> Result<Colour, Fault> {
        Ok(Colour {
            colour_primaries: reader.u(8)? as u8,
            transfer_characteristics: reader.u(8)? as u8,
            matrix_coefficients: reader.u(8)? as u8,
        })
    }
}

impl Syntax for VideoSignal {
    ghost syntax = { video_signal };

    fn read(reader: &mut BitReader) -> Result<VideoSignal, Fault> {
        Ok(VideoSignal {
            video_format: reader.u(3)? as u8,
            video_full_range_flag: reader.flag()?,
            colour: read_optional(reader)?,
        })
    }
}

impl Syntax for ChromaLocation {
    ghost syntax = { chroma_location };

    fn read(reader: &mut BitReader) -> Result<ChromaLocation, Fault> {
        Ok(ChromaLocation {
            chroma_sample_loc_type_top_field: reader.ue()?,
            chroma_sample_loc_type_bottom_field: reader.ue()?,
        })
    }
}

impl Syntax for Timing {
    ghost syntax = { timing };

    fn read(reader: &mut BitReader) -> Result<Timing, Fault> {
        Ok(Timing {
            num_units_in_tick: reader.u(32)?,
            time_scale: reader.u(32)?,
            fixed_frame_rate_flag: reader.flag()?,
        })
    }
}

impl Syntax for Restriction {
    ghost syntax = { restriction };

    fn read(reader: &mut BitReader) -> Result<Restriction, Fault> {
        Ok(Restriction {
            motion_vectors_over_pic_boundaries_flag: reader.flag()?,
            max_bytes_per_pic_denom: reader.ue()?,
            max_bits_per_mb_denom: reader.ue()?,
            log2_max_mv_length_horizontal: reader.ue()?,
            log2_max_mv_length_vertical: reader.ue()?,
            max_num_reorder_frames: reader.ue()?,
            max_dec_frame_buffering: reader.ue()?,
        })
    }
}

impl Syntax for HrdEntry {
    ghost syntax = { hrd_entry };

    fn read(reader: &mut BitReader) -> Result<HrdEntry, Fault> {
        Ok(HrdEntry {
            bit_rate_value_minus1: reader.ue()?,
            cpb_size_value_minus1: reader.ue()?,
            cbr_flag: reader.flag()?,
        })
    }
}

impl Syntax for Hrd {
    ghost syntax = { hrd };

    fn read(reader: &mut BitReader) -> Result<Hrd, Fault> {
        let cpb_cnt_minus1 = reader.ue_to(31)?;
        Ok(Hrd {
            bit_rate_scale: reader.u(4)? as u8,
            cpb_size_scale: reader.u(4)? as u8,
            entries: read_times(reader, cpb_cnt_minus1 + 1)?,
            initial_cpb_removal_delay_length_minus1: reader.u(5)? as u8,
            cpb_removal_delay_length_minus1: reader.u(5)? as u8,
            dpb_output_delay_length_minus1: reader.u(5)? as u8,
            time_offset_length: reader.u(5)? as u8,
        })
    }
}

impl Syntax for Vui {
    ghost syntax = { vui };

    fn read(reader: &mut BitReader) -> Result<Vui, Fault> {
        let aspect = read_optional(reader)?;
        let overscan_appropriate_flag = read_optional(reader)?;
        let video_signal = read_optional(reader)?;
        let chroma_location = read_optional(reader)?;
        let timing = read_optional(reader)?;
        let nal_hrd: Option<Hrd> = read_optional(reader)?;
        let vcl_hrd: Option<Hrd> = read_optional(reader)?;
        let low_delay_hrd_flag = read_where(reader, nal_hrd.is_some() | vcl_hrd.is_some())?;
        let pic_struct_present_flag = reader.flag()?;
        let restriction = read_optional(reader)?;
        Ok(Vui {
            aspect,
            overscan_appropriate_flag,
            video_signal,
            chroma_location,
            timing,
            nal_hrd,
            vcl_hrd,
            low_delay_hrd_flag,
            pic_struct_present_flag,
            restriction,
        })
    }
}
