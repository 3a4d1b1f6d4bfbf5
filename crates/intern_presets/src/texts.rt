//! The texts of the presets, in the order of their places.
ghost use Rattle.std.specs.Prelude.{◌≡◌, ◌<◌, ℕ, slice_get, map, Some, decimal};
ghost use Rattle.intern_presets.specs.Presets.{generated_text};
ghost use Rattle.intern_presets.specs.Table.{table};

use crate::table::TABLE;

/// The digits of the integers.
pub(crate) fn integer_texts() -> &'static [&'static str]
    ensures { (n : ℕ) → n < 256 → slice_get (map (λ t. t.now) result.now) n ≡ Some (decimal n) }
{
    &INTEGERS
}

/// The generated names.
pub(crate) fn generated_texts() -> &'static [&'static str]
    ensures { (n : ℕ) → n < 256 →
        slice_get (map (λ t. t.now) result.now) n ≡ Some (generated_text n) }
{
    &GENERATED
}

/// The texts of the constants, in rising order of bytes.
pub(crate) fn table_texts() -> &'static [&'static str]
    ensures { map (λ t. t.now) result.now ≡ table }
{
    &TABLE
}

#[rattlefmt::skip]
static INTEGERS: [&str; 256] = [
    "0", "1", "2", "3", "4", "5", "6", "7", "8", "9", "10", "11", "12", "13", "14", "15", "16",
    "17", "18", "19", "20", "21", "22", "23", "24", "25", "26", "27", "28", "29", "30", "31", "32",
    "33", "34", "35", "36", "37", "38", "39", "40", "41", "42", "43", "44", "45", "46", "47", "48",
    "49", "50", "51", "52", "53", "54", "55", "56", "57", "58", "59", "60", "61", "62", "63", "64",
    "65", "66", "67", "68", "69", "70", "71", "72", "73", "74", "75", "76", "77", "78", "79", "80",
    "81", "82", "83", "84", "85", "86", "87", "88", "89", "90", "91", "92", "93", "94", "95", "96",
    "97", "98", "99", "100", "101", "102", "103", "104", "105", "106", "107", "108", "109", "110",
    "111", "112", "113", "114", "115", "116", "117", "118", "119", "120", "121", "122", "123",
    "124", "125", "126", "127", "128", "129", "130", "131", "132", "133", "134", "135", "136",
    "137", "138", "139", "140", "141", "142", "143", "144", "145", "146", "147", "148", "149",
    "150", "151", "152", "153", "154", "155", "156", "157", "158", "159", "160", "161", "162",
    "163", "164", "165", "166", "167", "168", "169", "170", "171", "172", "173", "174", "175",
    "176", "177", "178", "179", "180", "181", "182", "183", "184", "185", "186", "187", "188",
    "189", "190", "191", "192", "193", "194", "195", "196", "197", "198", "199", "200", "201",
    "202", "203", "204", "205", "206", "207", "208", "209", "210", "211", "212", "213", "214",
    "215", "216", "217", "218", "219", "220", "221", "222", "223", "224", "225", "226", "227",
    "228", "229", "230", "231", "232", "233", "234", "235", "236", "237", "238", "239", "240",
    "241", "242", "243", "244", "245", "246", "247", "248", "249", "250", "251", "252", "253",
    "254", "255",
];

#[rattlefmt::skip]
static GENERATED: [&str; 256] = [
    "<ra@gennew>0", "<ra@gennew>1", "<ra@gennew>2", "<ra@gennew>3", "<ra@gennew>4", "<ra@gennew>5",
    "<ra@gennew>6", "<ra@gennew>7", "<ra@gennew>8", "<ra@gennew>9", "<ra@gennew>10",
    "<ra@gennew>11", "<ra@gennew>12", "<ra@gennew>13", "<ra@gennew>14", "<ra@gennew>15",
    "<ra@gennew>16", "<ra@gennew>17", "<ra@gennew>18", "<ra@gennew>19", "<ra@gennew>20",
    "<ra@gennew>21", "<ra@gennew>22", "<ra@gennew>23", "<ra@gennew>24", "<ra@gennew>25",
    "<ra@gennew>26", "<ra@gennew>27", "<ra@gennew>28", "<ra@gennew>29", "<ra@gennew>30",
    "<ra@gennew>31", "<ra@gennew>32", "<ra@gennew>33", "<ra@gennew>34", "<ra@gennew>35",
    "<ra@gennew>36", "<ra@gennew>37", "<ra@gennew>38", "<ra@gennew>39", "<ra@gennew>40",
    "<ra@gennew>41", "<ra@gennew>42", "<ra@gennew>43", "<ra@gennew>44", "<ra@gennew>45",
    "<ra@gennew>46", "<ra@gennew>47", "<ra@gennew>48", "<ra@gennew>49", "<ra@gennew>50",
    "<ra@gennew>51", "<ra@gennew>52", "<ra@gennew>53", "<ra@gennew>54", "<ra@gennew>55",
    "<ra@gennew>56", "<ra@gennew>57", "<ra@gennew>58", "<ra@gennew>59", "<ra@gennew>60",
    "<ra@gennew>61", "<ra@gennew>62", "<ra@gennew>63", "<ra@gennew>64", "<ra@gennew>65",
    "<ra@gennew>66", "<ra@gennew>67", "<ra@gennew>68", "<ra@gennew>69", "<ra@gennew>70",
    "<ra@gennew>71", "<ra@gennew>72", "<ra@gennew>73", "<ra@gennew>74", "<ra@gennew>75",
    "<ra@gennew>76", "<ra@gennew>77", "<ra@gennew>78", "<ra@gennew>79", "<ra@gennew>80",
    "<ra@gennew>81", "<ra@gennew>82", "<ra@gennew>83", "<ra@gennew>84", "<ra@gennew>85",
    "<ra@gennew>86", "<ra@gennew>87", "<ra@gennew>88", "<ra@gennew>89", "<ra@gennew>90",
    "<ra@gennew>91", "<ra@gennew>92", "<ra@gennew>93", "<ra@gennew>94", "<ra@gennew>95",
    "<ra@gennew>96", "<ra@gennew>97", "<ra@gennew>98", "<ra@gennew>99", "<ra@gennew>100",
    "<ra@gennew>101", "<ra@gennew>102", "<ra@gennew>103", "<ra@gennew>104", "<ra@gennew>105",
    "<ra@gennew>106", "<ra@gennew>107", "<ra@gennew>108", "<ra@gennew>109", "<ra@gennew>110",
    "<ra@gennew>111", "<ra@gennew>112", "<ra@gennew>113", "<ra@gennew>114", "<ra@gennew>115",
    "<ra@gennew>116", "<ra@gennew>117", "<ra@gennew>118", "<ra@gennew>119", "<ra@gennew>120",
    "<ra@gennew>121", "<ra@gennew>122", "<ra@gennew>123", "<ra@gennew>124", "<ra@gennew>125",
    "<ra@gennew>126", "<ra@gennew>127", "<ra@gennew>128", "<ra@gennew>129", "<ra@gennew>130",
    "<ra@gennew>131", "<ra@gennew>132", "<ra@gennew>133", "<ra@gennew>134", "<ra@gennew>135",
    "<ra@gennew>136", "<ra@gennew>137", "<ra@gennew>138", "<ra@gennew>139", "<ra@gennew>140",
    "<ra@gennew>141", "<ra@gennew>142", "<ra@gennew>143", "<ra@gennew>144", "<ra@gennew>145",
    "<ra@gennew>146", "<ra@gennew>147", "<ra@gennew>148", "<ra@gennew>149", "<ra@gennew>150",
    "<ra@gennew>151", "<ra@gennew>152", "<ra@gennew>153", "<ra@gennew>154", "<ra@gennew>155",
    "<ra@gennew>156", "<ra@gennew>157", "<ra@gennew>158", "<ra@gennew>159", "<ra@gennew>160",
    "<ra@gennew>161", "<ra@gennew>162", "<ra@gennew>163", "<ra@gennew>164", "<ra@gennew>165",
    "<ra@gennew>166", "<ra@gennew>167", "<ra@gennew>168", "<ra@gennew>169", "<ra@gennew>170",
    "<ra@gennew>171", "<ra@gennew>172", "<ra@gennew>173", "<ra@gennew>174", "<ra@gennew>175",
    "<ra@gennew>176", "<ra@gennew>177", "<ra@gennew>178", "<ra@gennew>179", "<ra@gennew>180",
    "<ra@gennew>181", "<ra@gennew>182", "<ra@gennew>183", "<ra@gennew>184", "<ra@gennew>185",
    "<ra@gennew>186", "<ra@gennew>187", "<ra@gennew>188", "<ra@gennew>189", "<ra@gennew>190",
    "<ra@gennew>191", "<ra@gennew>192", "<ra@gennew>193", "<ra@gennew>194", "<ra@gennew>195",
    "<ra@gennew>196", "<ra@gennew>197", "<ra@gennew>198", "<ra@gennew>199", "<ra@gennew>200",
    "<ra@gennew>201", "<ra@gennew>202", "<ra@gennew>203", "<ra@gennew>204", "<ra@gennew>205",
    "<ra@gennew>206", "<ra@gennew>207", "<ra@gennew>208", "<ra@gennew>209", "<ra@gennew>210",
    "<ra@gennew>211", "<ra@gennew>212", "<ra@gennew>213", "<ra@gennew>214", "<ra@gennew>215",
    "<ra@gennew>216", "<ra@gennew>217", "<ra@gennew>218", "<ra@gennew>219", "<ra@gennew>220",
    "<ra@gennew>221", "<ra@gennew>222", "<ra@gennew>223", "<ra@gennew>224", "<ra@gennew>225",
    "<ra@gennew>226", "<ra@gennew>227", "<ra@gennew>228", "<ra@gennew>229", "<ra@gennew>230",
    "<ra@gennew>231", "<ra@gennew>232", "<ra@gennew>233", "<ra@gennew>234", "<ra@gennew>235",
    "<ra@gennew>236", "<ra@gennew>237", "<ra@gennew>238", "<ra@gennew>239", "<ra@gennew>240",
    "<ra@gennew>241", "<ra@gennew>242", "<ra@gennew>243", "<ra@gennew>244", "<ra@gennew>245",
    "<ra@gennew>246", "<ra@gennew>247", "<ra@gennew>248", "<ra@gennew>249", "<ra@gennew>250",
    "<ra@gennew>251", "<ra@gennew>252", "<ra@gennew>253", "<ra@gennew>254", "<ra@gennew>255",
];
